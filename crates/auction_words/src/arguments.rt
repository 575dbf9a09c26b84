//! The arguments of the subcommands: files, options and flags. No line of help is over 80 columns:
//! `clap` puts 10 before a line of an option's long help, and up to 21 before its short one.
ghost use Rattle.std.specs.Prelude.{◌≡◌, ◌∷◌, [], IfOk, codes};
ghost use Rattle.clap.specs.Walk.{texts};
ghost use Rattle.clap.specs.Words.{rule_of};
ghost use Rattle.auction_words.specs.CommandLine.{file_rule, flag_rule, in_place_rule};
ghost use Rattle.auction_words.specs.CommandLine.{option_rule, required_rule};

use crate::texts;
use clap::{Arg, ArgAction};
use std::alloc::{AllocError, Global};

/// The most connections that may be asked for.
pub const MOST_CONNECTIONS: u64 = 1_000_000;

/// The most messages of which one may be named by its place.
pub const MOST_MESSAGES: u64 = 1_000_000;

/// A file that has to be given, by its place.
pub fn file<'a>(alloc: Global, name: &'a str, value_name: &'a str, help: &'a str) -> Arg<'a>
    ensures { rule_of result ≡ file_rule name.entry.now }
{
    Arg::new(alloc, name)
        .value_name(value_name)
        .required(true)
        .action(ArgAction::Set)
        .help(help)
}

/// An option with a value, which may be left out.
pub fn option<'a>(alloc: Global, name: &'a str, value_name: &'a str, help: &'a str) -> Arg<'a>
    ensures { rule_of result ≡ option_rule name.entry.now }
{
    Arg::new(alloc, name)
        .long(name)
        .value_name(value_name)
        .action(ArgAction::Set)
        .help(help)
}

/// An option that has to be given.
pub fn required_option<'a>(
    alloc: Global,
    name: &'a str,
    value_name: &'a str,
    help: &'a str,
) -> Arg<'a>
    ensures { rule_of result ≡ required_rule name.entry.now }
{
    option(alloc, name, value_name, help).required(true)
}

/// A flag.
pub fn flag<'a>(alloc: Global, name: &'a str, help: &'a str) -> Arg<'a>
    ensures { rule_of result ≡ flag_rule name.entry.now }
{
    Arg::new(alloc, name)
        .long(name)
        .action(ArgAction::SetTrue)
        .help(help)
}

/// The file of a house that is there.
pub fn house_file<'a>(alloc: Global) -> Arg<'a>
    ensures { rule_of result ≡ file_rule (codes "file") }
{
    file(
        alloc,
        "file",
        "FILE",
        "The file of a house that init has made",
    )
}

/// The band table of a new house.
pub fn band_table<'a>(alloc: Global) -> Arg<'a>
    ensures { rule_of result ≡ option_rule (codes "bands") }
{
    option(alloc, "bands", "CSV", "The band table, as CSV").long_help(texts::BANDS)
}

/// The rate of the fee of a new house.
pub fn fee_rate<'a>(alloc: Global) -> Arg<'a>
    ensures { rule_of result ≡ option_rule (codes "rate") }
{
    let help = "A sale's fee in ten-thousandths: 0 to 2000";
    option(alloc, "rate", "N", help).long_help(texts::RATE)
}

/// The rule of the zone of a new house.
pub fn time_zone<'a>(alloc: Global) -> Arg<'a>
    ensures { rule_of result ≡ option_rule (codes "zone") }
{
    option(alloc, "zone", "RULE", "The time zone, as a POSIX rule").long_help(texts::ZONE)
}

/// When a house is changed.
pub fn moment<'a>(alloc: Global) -> Arg<'a>
    ensures { rule_of result ≡ required_rule (codes "moment") }
{
    let help = "When, in seconds after 1970 began: 0 to 4102444800";
    required_option(alloc, "moment", "N", help)
}

/// The member who looks at runs.
pub fn looker<'a>(alloc: Global) -> Arg<'a>
    ensures { rule_of result ≡ required_rule (codes "member") }
{
    required_option(alloc, "member", "N", "The member who looks: 1 to 100000")
}

/// The file of a house that runs begin with, in place of what sets up a new one.
pub fn begun_house<'a>(alloc: Global) -> Result<Arg<'a>, AllocError>
    ensures rule { IfOk result (λ arg. rule_of arg ≡ in_place_rule (codes "house")) }
    ensures conflicts { IfOk result (λ arg. texts arg.conflicts.items
        ≡ codes "bands" ∷ codes "rate" ∷ codes "zone" ∷ []) }
{
    option(alloc, "house", "FILE", "Begin with the house in a file")
        .long_help(texts::HOUSE)
        .conflicts_with("bands")?
        .conflicts_with("rate")?
        .conflicts_with("zone")
}
