//! The words that the program takes.
ghost use Rattle.std.specs.Prelude.{◌≡◌, ℕ, IfErr, IfOk, IfSome, codes, is_some, map};
ghost use Rattle.std.specs.Prelude.{string_bytes, true};
ghost use Rattle.auction_words.specs.CommandLine.{house_app};
ghost use Rattle.auction_words.specs.Tasks.{Asks, AsksForNone, HasRate, IsAsked, IsAskedBy};
ghost use Rattle.auction_words.specs.Tasks.{IsBeginning, IsHouse, IsMember, IsMemoryIfAsked};
ghost use Rattle.auction_words.specs.Tasks.{IsNumberOf, IsRate, IsWithin, NamesNoBeginning};
ghost use Rattle.auction_words.specs.Tasks.{NamesNoHouse, rows_in};
ghost use Rattle.clap.specs.Matches.{has_subcommand};
ghost use Rattle.clap.specs.Simple.{subcommand_of, subcommand_rows_of};
ghost use Rattle.clap.specs.Takes.{takes};

use crate::arguments::{MOST_CONNECTIONS, MOST_MESSAGES};
use crate::commands::command;
use crate::values::{Refused, number, refusal, text};
use cents::LIMIT;
use clap::{ArgMatches, Error};
use house_rows::{MOST_MEMBERS, MOST_RATE, Rate};
use settle::LAST_MOMENT;
use std::alloc::Global;

/// What a house is set up with, as the words name it.
#[derive(Clone, Copy)]
pub struct HouseWords<'a> {
    /// The file of the band table; without one it is the example table.
    pub bands: Option<&'a str>,
    /// The rate of the fee.
    pub rate: Rate,
    /// The rule of the zone.
    pub zone: &'a str,
}

/// What a replay is asked for.
#[derive(Clone, Copy)]
pub struct Replay {
    /// To begin with three members, a category and an item.
    pub preset: bool,
    /// To append the public record.
    pub record: bool,
}

/// What serving is asked for.
#[derive(Clone, Copy)]
pub struct Serve {
    /// The port, from 1 on.
    pub port: u16,
    /// How many connections, from 1 to 1000000.
    pub count: u64,
}

/// What an import is asked for.
#[derive(Clone, Copy)]
pub struct ImportWords<'a> {
    /// The lot file.
    pub lots: &'a str,
    /// The member who lists, from 1 to 100000.
    pub member: u64,
    /// The moment of each listing, up to 4102444800.
    pub moment: u64,
}

/// What setting a band table is asked for, as the words name it.
#[derive(Clone, Copy)]
pub struct BandsWords<'a> {
    /// The file of the band table.
    pub csv: &'a str,
    /// The moment, up to 4102444800.
    pub moment: u64,
}

/// What a statement is asked for, as the words name it.
#[derive(Clone, Copy)]
pub struct StatementWords<'a> {
    /// The member, from 1 to 100000.
    pub member: u64,
    /// The first day.
    pub from: &'a str,
    /// The last day.
    pub to: &'a str,
    /// To print records of CSV.
    pub csv: bool,
}

/// What an audit is asked for.
#[derive(Clone, Copy)]
pub struct AuditWords<'a> {
    /// The file of one list of messages.
    pub left: &'a str,
    /// The file of the other.
    pub right: &'a str,
    /// The member, from 1 to 100000.
    pub member: u64,
}

/// What a look at a surplus is asked for.
#[derive(Clone, Copy)]
pub struct SurplusWords<'a> {
    /// The file of the list of messages.
    pub list: &'a str,
    /// The place of a bid in it, from 1 to 1000000.
    pub place: u64,
    /// The maximum that the bid is raised to, in cents, up to 1000000000.
    pub maximum: u64,
    /// The member who looks, from 1 to 100000.
    pub member: u64,
}

/// What the runs of an audit begin with.
#[derive(Clone, Copy)]
pub enum Beginning<'a> {
    /// New houses in memory.
    New(HouseWords<'a>),
    /// The house in a file, which stays as it is.
    House(&'a str),
}

/// What the words ask for.
#[derive(Clone, Copy)]
pub enum Task<'a> {
    /// To make a house in a file.
    Init(&'a str, HouseWords<'a>),
    /// To answer connections over the house in a file.
    Serve(&'a str, Serve),
    /// To answer standard input over a new house in memory.
    Replay(HouseWords<'a>, Replay),
    /// To list the rows of a lot file in the house in a file.
    Import(&'a str, ImportWords<'a>),
    /// To print a statement from the house in a file.
    Statement(&'a str, StatementWords<'a>),
    /// To set a band table in the house in a file.
    Bands(&'a str, BandsWords<'a>),
    /// To make the house in a file one of the newest version.
    Upgrade(&'a str),
    /// To compare two runs.
    Audit(Beginning<'a>, AuditWords<'a>),
    /// To raise a bid of a run.
    Surplus(Beginning<'a>, SurplusWords<'a>),
}

// The number of a member.
fn member(words: &ArgMatches<'_>) -> Result<u64, Refused>
    ensures asked { IfOk result (IsNumberOf (codes "member") (rows_in words.now)) }
    ensures within { IfOk result IsMember }
    ensures refused { let rows = rows_in words.now in
        IfErr result (λ _. (n : ℕ) → IsNumberOf (codes "member") rows n → IsMember n → ⊥) }
{
    number(words, "member", 1, MOST_MEMBERS as u64)
}

// What the words of a subcommand say of the house.
fn house_words<'a>(words: &ArgMatches<'a>) -> Result<HouseWords<'a>, Refused>
    ensures asked { IfOk result (IsHouse (rows_in words.now)) }
    ensures within { IfOk result (λ house. IsRate house.rate) }
    ensures refused { IfErr result (λ _. NamesNoHouse (rows_in words.now)) }
{
    let rate = number(words, "rate", 0, MOST_RATE)?;
    match Rate::new(rate) {
        Some(rate) => Ok(HouseWords {
            bands: words.get_str("bands"),
            rate,
            zone: text(words, "zone")?,
        }),
        None => Err(Refused { name: "rate" }),
    }
}

// What the words of a subcommand say of the beginning of its runs.
fn beginning_words<'a>(words: &ArgMatches<'a>) -> Result<Beginning<'a>, Refused>
    ensures asked { IfOk result (IsBeginning (rows_in words.now)) }
    ensures within { IfOk result HasRate }
    ensures refused { IfErr result (λ _. NamesNoBeginning (rows_in words.now)) }
{
    match words.get_str("house") {
        Some(file) => Ok(Beginning::House(file)),
        None => match house_words(words) {
            Ok(house) => Ok(Beginning::New(house)),
            Err(refused) => Err(refused),
        },
    }
}

// What the words of `init` ask for.
fn init_task<'a>(words: &ArgMatches<'a>) -> Result<Task<'a>, Refused>
    ensures asked { IfOk result (Asks (codes "init") (rows_in words.now)) }
    ensures within { IfOk result IsWithin }
    ensures refused { IfErr result (λ _. AsksForNone (codes "init") (rows_in words.now)) }
{
    let file = text(words, "file")?;
    match house_words(words) {
        Ok(house) => Ok(Task::Init(file, house)),
        Err(refused) => Err(refused),
    }
}

// What the words of `serve` ask for.
fn serve_task<'a>(words: &ArgMatches<'a>) -> Result<Task<'a>, Refused>
    ensures asked { IfOk result (Asks (codes "serve") (rows_in words.now)) }
    ensures within { IfOk result IsWithin }
    ensures refused { IfErr result (λ _. AsksForNone (codes "serve") (rows_in words.now)) }
{
    let file = text(words, "file")?;
    let port = number(words, "port", 1, 65_535)? as u16;
    let count = number(words, "count", 1, MOST_CONNECTIONS)?;
    Ok(Task::Serve(file, Serve { port, count }))
}

// What the words of `replay` ask for.
fn replay_task<'a>(words: &ArgMatches<'a>) -> Result<Task<'a>, Refused>
    ensures asked { IfOk result (Asks (codes "replay") (rows_in words.now)) }
    ensures within { IfOk result IsWithin }
    ensures refused { IfErr result (λ _. AsksForNone (codes "replay") (rows_in words.now)) }
{
    let asked = Replay {
        preset: words.get_flag("preset"),
        record: words.get_flag("record"),
    };
    match house_words(words) {
        Ok(house) => Ok(Task::Replay(house, asked)),
        Err(refused) => Err(refused),
    }
}

// What the words of `import` ask for.
fn import_task<'a>(words: &ArgMatches<'a>) -> Result<Task<'a>, Refused>
    ensures asked { IfOk result (Asks (codes "import") (rows_in words.now)) }
    ensures within { IfOk result IsWithin }
    ensures refused { IfErr result (λ _. AsksForNone (codes "import") (rows_in words.now)) }
{
    let file = text(words, "file")?;
    let asked = ImportWords {
        lots: text(words, "lots")?,
        member: member(words)?,
        moment: number(words, "moment", 0, LAST_MOMENT)?,
    };
    Ok(Task::Import(file, asked))
}

// What the words of `statement` ask for.
fn statement_task<'a>(words: &ArgMatches<'a>) -> Result<Task<'a>, Refused>
    ensures asked { IfOk result (Asks (codes "statement") (rows_in words.now)) }
    ensures within { IfOk result IsWithin }
    ensures refused { IfErr result (λ _. AsksForNone (codes "statement") (rows_in words.now)) }
{
    let file = text(words, "file")?;
    let asked = StatementWords {
        member: member(words)?,
        from: text(words, "from")?,
        to: text(words, "to")?,
        csv: words.get_flag("csv"),
    };
    Ok(Task::Statement(file, asked))
}

// What the words of `bands` ask for.
fn bands_task<'a>(words: &ArgMatches<'a>) -> Result<Task<'a>, Refused>
    ensures asked { IfOk result (Asks (codes "bands") (rows_in words.now)) }
    ensures within { IfOk result IsWithin }
    ensures refused { IfErr result (λ _. AsksForNone (codes "bands") (rows_in words.now)) }
{
    let file = text(words, "file")?;
    let csv = text(words, "csv")?;
    let moment = number(words, "moment", 0, LAST_MOMENT)?;
    Ok(Task::Bands(file, BandsWords { csv, moment }))
}

// What the words of `audit` ask for.
fn audit_task<'a>(words: &ArgMatches<'a>) -> Result<Task<'a>, Refused>
    ensures asked { IfOk result (Asks (codes "audit") (rows_in words.now)) }
    ensures within { IfOk result IsWithin }
    ensures refused { IfErr result (λ _. AsksForNone (codes "audit") (rows_in words.now)) }
{
    let asked = AuditWords {
        left: text(words, "left")?,
        right: text(words, "right")?,
        member: member(words)?,
    };
    match beginning_words(words) {
        Ok(begun) => Ok(Task::Audit(begun, asked)),
        Err(refused) => Err(refused),
    }
}

// What the words of `surplus` ask for.
fn surplus_task<'a>(words: &ArgMatches<'a>) -> Result<Task<'a>, Refused>
    ensures asked { IfOk result (Asks (codes "surplus") (rows_in words.now)) }
    ensures within { IfOk result IsWithin }
    ensures refused { IfErr result (λ _. AsksForNone (codes "surplus") (rows_in words.now)) }
{
    let asked = SurplusWords {
        list: text(words, "list")?,
        place: number(words, "place", 1, MOST_MESSAGES)?,
        maximum: number(words, "maximum", 0, LIMIT)?,
        member: member(words)?,
    };
    match beginning_words(words) {
        Ok(begun) => Ok(Task::Surplus(begun, asked)),
        Err(refused) => Err(refused),
    }
}

// What the words of a subcommand ask for.
fn task_of<'a>(name: &str, words: &ArgMatches<'a>) -> Result<Task<'a>, Refused>
    ensures asked { IfOk result (Asks name.now (rows_in words.now)) }
    ensures within { IfOk result IsWithin }
    ensures refused { IfErr result (λ _. AsksForNone name.now (rows_in words.now)) }
{
    match name {
        "init" => init_task(words),
        "serve" => serve_task(words),
        "replay" => replay_task(words),
        "import" => import_task(words),
        "statement" => statement_task(words),
        "bands" => bands_task(words),
        "upgrade" => Ok(Task::Upgrade(text(words, "file")?)),
        "audit" => audit_task(words),
        "surplus" => surplus_task(words),
        _ => Err(Refused { name: "command" }),
    }
}

// What words that were taken ask for.
fn task_in<'a>(alloc: Global, matches: &ArgMatches<'a>) -> Result<Option<Task<'a>>, Error>
    ensures asked { IfOk result (λ task. IfSome task (IsAskedBy (subcommand_rows_of matches.now))) }
    ensures within { IfOk result (λ task. IfSome task IsWithin) }
    ensures given { IfOk result (λ task. is_some task ≡ has_subcommand matches.now) }
    ensures refused { IfErr result (IsMemoryIfAsked (subcommand_rows_of matches.now)) }
{
    match matches.subcommand() {
        Some((name, words)) => match task_of(name, words) {
            Ok(task) => Ok(Some(task)),
            Err(refused) => Err(refusal(alloc, name, words, refused)?),
        },
        None => Ok(None),
    }
}

/// What words ask for, the first of them the program's own name. It is never `None`, because the
/// command line requires a subcommand. An error is for words that are refused, for those that ask
/// for help, and for memory that ran out. Of `audit` and `surplus` no clause says which words are
/// refused: `takes` holds of no command with arguments that exclude each other.
pub fn read_task<'a>(alloc: Global, words: &'a [String]) -> Result<Option<Task<'a>>, Error>
    ensures asked { IfOk result (λ task. IfSome task (IsAsked (map string_bytes words.now))) }
    ensures within { IfOk result (λ task. IfSome task IsWithin) }
    ensures given { IfOk result (λ task. is_some task ≡ true) }
    ensures refused { let texts = map string_bytes words.now in IfErr result (λ error.
        takes house_app texts ≡ true → IsMemoryIfAsked (subcommand_of house_app texts) error) }
{
    let matches = command(alloc)?.try_get_matches_from(words)?;
    task_in(alloc, &matches)
}
