//! The values of the words, each read or refused.
ghost use Rattle.std.specs.Prelude.{◌≡◌, ℕ, IfErr, IfOk};
ghost use Rattle.std.specs.Int.{IsInRange};
ghost use Rattle.auction_words.specs.Tasks.{IsNumberOf, IsTextOf, rows_in};
ghost use Rattle.clap.specs.Values.{kind_of};
ghost use Rattle.clap.specs.Walk.{first_of};
ghost use Rattle.clap.specs.declared.error.kind.ErrorKind.TheVariants.{ValueValidation};

use crate::commands::command_named;
use clap::error::ErrorKind;
use clap::{ArgMatches, Command, Error};
use std::alloc::{AllocError, Global};

/// The name of an option or a file whose value is refused.
#[derive(Clone, Copy)]
pub struct Refused {
    /// The name.
    pub name: &'static str,
}

/// A text of the words, which is there in all that `clap` takes.
pub fn text<'a>(words: &ArgMatches<'a>, name: &'static str) -> Result<&'a str, Refused>
    ensures value { IfOk result (λ text. IsTextOf name.now (rows_in words.now) text.now) }
    ensures missing { IfErr result (λ _. first_of name.now (rows_in words.now) ≡ None) }
    ensures named { IfErr result (λ refused. refused.name.now ≡ name.now) }
{
    match words.get_str(name) {
        Some(text) => Ok(text),
        None => Err(Refused { name }),
    }
}

/// A number of the words, in a range. Else what is refused has its name.
pub fn number(
    words: &ArgMatches<'_>,
    name: &'static str,
    least: u64,
    most: u64,
) -> Result<u64, Refused>
    ensures value { IfOk result (IsNumberOf name.now (rows_in words.now)) }
    ensures within { IfOk result (IsInRange least most) }
    ensures missing { let rows = rows_in words.now in
        IfErr result (λ _. (n : ℕ) → IsNumberOf name.now rows n → IsInRange least most n → ⊥) }
    ensures named { IfErr result (λ refused. refused.name.now ≡ name.now) }
{
    match words.get_one(name) {
        Some(number) if least <= number && number <= most => Ok(number),
        _ => Err(Refused { name }),
    }
}

// What is said of a refused value: the value, and what the help has of its option.
fn refusal_text(
    alloc: Global,
    command: &Command<'_>,
    words: &ArgMatches<'_>,
    refused: Refused,
) -> Result<String, AllocError> {
    let value = words.get_str(refused.name).unwrap_or("");
    let options = command.get_arguments();
    match options
        .iter()
        .find(|option| option.get_id() == refused.name)
    {
        Some(option) => {
            let help = option.get_long_help().or(option.get_help());
            let help = help.unwrap_or("");
            format!(in alloc; "invalid value '{value}' for '{option}'\n\n{help}")
        }
        None => format!(in alloc; "invalid value '{value}'"),
    }
}

// The command of a subcommand's name, whose usage begins with the program's name.
fn command_in_usage<'a>(alloc: Global, name: &str) -> Result<Command<'a>, AllocError> {
    let usage_name = format!(in alloc; "auction {name}")?;
    command_named(alloc, name)?.bin_name(usage_name.as_str())
}

// The error for a refused value of a command.
fn error_of(
    alloc: Global,
    command: &mut Command<'_>,
    words: &ArgMatches<'_>,
    refused: Refused,
) -> Result<Error, AllocError>
    ensures { IfOk result (λ error. kind_of error ≡ ValueValidation) }
{
    let message = refusal_text(alloc, command, words, refused)?;
    command.error(ErrorKind::ValueValidation, message.as_str())
}

/// The error for a refused value of a subcommand, with its usage.
pub fn refusal(
    alloc: Global,
    name: &str,
    words: &ArgMatches<'_>,
    refused: Refused,
) -> Result<Error, AllocError>
    ensures { IfOk result (λ error. kind_of error ≡ ValueValidation) }
{
    let mut command = command_in_usage(alloc, name)?;
    error_of(alloc, &mut command, words, refused)
}
