//! The subcommands, as `clap` reads and explains them.
ghost use Rattle.std.specs.Prelude.{◌≡◌, IfOk, codes, fold};
ghost use Rattle.clap.specs.Words.{app_of, new_app, shape_of, with_rule};
ghost use Rattle.auction_words.specs.CommandLine.{audit_shape, bands_shape, house_app};
ghost use Rattle.auction_words.specs.CommandLine.{import_shape, init_shape, replay_shape};
ghost use Rattle.auction_words.specs.CommandLine.{serve_shape, setup_rules, shape_named};
ghost use Rattle.auction_words.specs.CommandLine.{statement_shape, surplus_shape, upgrade_shape};

use crate::arguments::{
    band_table, begun_house, fee_rate, file, flag, house_file, looker, moment, required_option,
    time_zone,
};
use crate::texts;
use clap::Command;
use std::alloc::{AllocError, Global};

// A subcommand with what the help says of it, and no argument yet.
fn subcommand<'a>(
    alloc: Global,
    name: &'a str,
    about: &'a str,
    after_long_help: &'a str,
) -> Command<'a>
    ensures { app_of result ≡ new_app name.entry.now }
{
    Command::new(alloc, name)
        .about(about)
        .after_long_help(after_long_help)
}

// A command with what sets up a new house, all of which may be left out.
fn with_setup<'a>(alloc: Global, command: Command<'a>) -> Result<Command<'a>, AllocError>
    ensures { IfOk result (λ r. app_of r ≡ fold with_rule (app_of command.entry) setup_rules) }
{
    command
        .arg(band_table(alloc))?
        .arg(fee_rate(alloc).default_value("1000"))?
        .arg(time_zone(alloc).default_value("UTC0"))
}

// What its house is set up with has to be given.
fn init_command<'a>(alloc: Global) -> Result<Command<'a>, AllocError>
    ensures { IfOk result (λ command. shape_of command ≡ init_shape) }
{
    let about = "Makes a new house in a file, and prints created";
    let help = "The file, made where it is missing; it may hold no house";
    subcommand(alloc, "init", about, texts::INIT)
        .arg(file(alloc, "file", "FILE", help))?
        .arg(band_table(alloc).required(true))?
        .arg(fee_rate(alloc).required(true))?
        .arg(time_zone(alloc).required(true))
}

fn serve_command<'a>(alloc: Global) -> Result<Command<'a>, AllocError>
    ensures { IfOk result (λ command. shape_of command ≡ serve_shape) }
{
    let about = "Answers connections to 127.0.0.1 over the house in a file";
    let count = "How many connections are answered: 1 to 1000000";
    subcommand(alloc, "serve", about, texts::SERVE)
        .arg(house_file(alloc))?
        .arg(required_option(alloc, "port", "N", "The TCP port: 1 to 65535"))?
        .arg(required_option(alloc, "count", "N", count))
}

fn replay_command<'a>(alloc: Global) -> Result<Command<'a>, AllocError>
    ensures { IfOk result (λ command. shape_of command ≡ replay_shape) }
{
    let about = "Answers the messages on standard input over a new house in memory";
    let preset = "Begin with three members, a category and an item";
    let command = subcommand(alloc, "replay", about, texts::REPLAY)
        .arg(flag(alloc, "preset", preset))?
        .arg(flag(alloc, "record", "Append the public record and a newline"))?;
    with_setup(alloc, command)
}

fn import_command<'a>(alloc: Global) -> Result<Command<'a>, AllocError>
    ensures { IfOk result (λ command. shape_of command ≡ import_shape) }
{
    let about = "Lists each row of a lot file for a member, in the house in a file";
    let member = "The member whose items are listed: 1 to 100000";
    subcommand(alloc, "import", about, texts::IMPORT)
        .arg(house_file(alloc))?
        .arg(file(alloc, "lots", "LOTS", "The lot file, as CSV"))?
        .arg(required_option(alloc, "member", "N", member))?
        .arg(moment(alloc).long_help(texts::MOMENT))
}

fn statement_command<'a>(alloc: Global) -> Result<Command<'a>, AllocError>
    ensures { IfOk result (λ command. shape_of command ≡ statement_shape) }
{
    let about = "Prints what a member sold and bought in a period";
    let member = "The member whose statement it is: 1 to 100000";
    subcommand(alloc, "statement", about, texts::STATEMENT)
        .arg(house_file(alloc))?
        .arg(required_option(alloc, "member", "N", member))?
        .arg(required_option(alloc, "from", "DAY", "The first day, as YYYY-MM-DD"))?
        .arg(required_option(alloc, "to", "DAY", "The last day, as YYYY-MM-DD"))?
        .arg(flag(alloc, "csv", "Print records of CSV, without the totals"))
}

fn bands_command<'a>(alloc: Global) -> Result<Command<'a>, AllocError>
    ensures { IfOk result (λ command. shape_of command ≡ bands_shape) }
{
    let about = "Sets a new band table in the house in a file";
    subcommand(alloc, "bands", about, texts::SET_BANDS)
        .arg(house_file(alloc))?
        .arg(file(alloc, "csv", "CSV", "The band table, as CSV"))?
        .arg(moment(alloc))
}

fn upgrade_command<'a>(alloc: Global) -> Result<Command<'a>, AllocError>
    ensures { IfOk result (λ command. shape_of command ≡ upgrade_shape) }
{
    let about = "Makes a house of version 1 in a file one of version 2";
    subcommand(alloc, "upgrade", about, texts::UPGRADE).arg(house_file(alloc))
}

fn audit_command<'a>(alloc: Global) -> Result<Command<'a>, AllocError>
    ensures { IfOk result (λ command. shape_of command ≡ audit_shape) }
{
    let about = "Compares two runs of messages as one member sees them";
    let left = "The messages of one run, one after the other";
    let command = subcommand(alloc, "audit", about, texts::AUDIT)
        .arg(file(alloc, "left", "LEFT", left))?
        .arg(file(alloc, "right", "RIGHT", "The messages of the other run"))?
        .arg(looker(alloc))?
        .arg(begun_house(alloc)?)?;
    with_setup(alloc, command)
}

fn surplus_command<'a>(alloc: Global) -> Result<Command<'a>, AllocError>
    ensures { IfOk result (λ command. shape_of command ≡ surplus_shape) }
{
    let about = "Tells whether a raised maximum stays unseen by another member";
    let list = "The messages of the run, one after the other";
    let place = "The bid's place among the messages: 1 to 1000000";
    let maximum = "What the bid is raised to, in cents: 0 to 1000000000";
    let command = subcommand(alloc, "surplus", about, texts::SURPLUS)
        .arg(file(alloc, "list", "LIST", list))?
        .arg(required_option(alloc, "place", "N", place))?
        .arg(required_option(alloc, "maximum", "N", maximum))?
        .arg(looker(alloc))?
        .arg(begun_house(alloc)?)?;
    with_setup(alloc, command)
}

/// The command of a subcommand's name; of any other it is the last.
pub fn command_named<'a>(alloc: Global, name: &str) -> Result<Command<'a>, AllocError>
    ensures { IfOk result (λ command. shape_of command ≡ shape_named name.now) }
{
    match name {
        "init" => init_command(alloc),
        "serve" => serve_command(alloc),
        "replay" => replay_command(alloc),
        "import" => import_command(alloc),
        "statement" => statement_command(alloc),
        "bands" => bands_command(alloc),
        "upgrade" => upgrade_command(alloc),
        "audit" => audit_command(alloc),
        _ => surplus_command(alloc),
    }
}

/// The command line: one subcommand.
pub fn command<'a>(alloc: Global) -> Result<Command<'a>, AllocError>
    ensures { IfOk result (λ command. app_of command ≡ house_app) }
{
    Command::new(alloc, "auction")
        .version(texts::VERSION)
        .about("An auction house: HTTP/1.1 messages with JSON in, their answers out")
        .after_long_help(texts::PROGRAM)
        .subcommand_required(true)
        .subcommand(init_command(alloc)?)?
        .subcommand(serve_command(alloc)?)?
        .subcommand(replay_command(alloc)?)?
        .subcommand(import_command(alloc)?)?
        .subcommand(statement_command(alloc)?)?
        .subcommand(bands_command(alloc)?)?
        .subcommand(upgrade_command(alloc)?)?
        .subcommand(audit_command(alloc)?)?
        .subcommand(surplus_command(alloc)?)
}
