//! Commands, field by field in the order in which they are judged.
ghost use Rattle.std.specs.Prelude.{◌≡◌, ◌≢◌, false, true, Ok, Some, IfOk, IfErr, IfSome, MatchOption, option_map};
ghost use Rattle.serde_json.specs.Data.{no_members};
ghost use Rattle.site_bodies.specs.Body.{fields_of};
ghost use Rattle.site_request.specs.Fields.{Gives};
ghost use Rattle.site_request.specs.declared.command_path.CommandPath.TheVariants as the_path;
ghost use Rattle.site_request.specs.Commands.{answer_in, bid_in, category_in, command_of};
ghost use Rattle.site_request.specs.Commands.{feedback_in, fields_in, has_fields, listing_in};
ghost use Rattle.site_request.specs.Commands.{question_in, register_in, text_in};

use crate::command_path::CommandPath;
use crate::field::Field;
use crate::fields::{integer, number, optional, rating_of, text};
use crate::unread::{Unread, Wrong};
use house_rows::{Command, Rows, Text};
use json::Scratch;
use site_bodies::{Body, BodyFault, lone_text, lone_whole, read_pairs};
use std::alloc::Global;

#[tactic(auto, unfolding(crate::specs::Commands::register_in))]
fn register(alloc: Global, body: &Body<'_>) -> Result<Command, Unread>
    ensures { Gives result (register_in (fields_of body.now)) }
{
    let name = text(alloc, body, Field::Name)?;
    Ok(Command::Register { name })
}

#[tactic(auto, unfolding(crate::specs::Commands::category_in))]
fn add_category(alloc: Global, body: &Body<'_>) -> Result<Command, Unread>
    ensures { Gives result (category_in (fields_of body.now)) }
{
    let name = text(alloc, body, Field::Name)?;
    Ok(Command::AddCategory { name })
}

#[tactic(auto, unfolding(crate::specs::Commands::listing_in))]
fn list(alloc: Global, body: &Body<'_>) -> Result<Command, Unread>
    ensures { Gives result (listing_in (fields_of body.now)) }
{
    let category = number(body, Field::Category)?;
    let lot = text(alloc, body, Field::Lot)?;
    let title = text(alloc, body, Field::Title)?;
    let words = text(alloc, body, Field::Text)?;
    let start = number(body, Field::Start)?;
    let buy_now = optional(body, Field::BuyNow)?;
    let end = number(body, Field::End)?;
    let reserve = optional(body, Field::Reserve)?;
    Ok(Command::List {
        category,
        lot,
        title,
        text: words,
        start,
        buy_now,
        end,
        reserve,
    })
}

#[tactic(auto, unfolding(crate::specs::Commands::bid_in))]
fn bid(body: &Body<'_>, item: u64) -> Result<Command, Unread>
    ensures { Gives result (bid_in item (fields_of body.now)) }
{
    let maximum = number(body, Field::Maximum)?;
    Ok(Command::Bid { item, maximum })
}

#[tactic(auto, unfolding(crate::specs::Commands::question_in))]
fn ask(alloc: Global, body: &Body<'_>, item: u64) -> Result<Command, Unread>
    ensures { Gives result (question_in item (fields_of body.now)) }
{
    let text = text(alloc, body, Field::Text)?;
    Ok(Command::Ask { item, text })
}

#[tactic(auto, unfolding(crate::specs::Commands::answer_in))]
fn answer(
    alloc: Global,
    body: &Body<'_>,
    item: u64,
    asker: u64,
    number: u64,
) -> Result<Command, Unread>
    ensures { Gives result (answer_in item asker number (fields_of body.now)) }
{
    let text = text(alloc, body, Field::Text)?;
    Ok(Command::Answer {
        item,
        asker,
        number,
        text,
    })
}

#[tactic(auto, unfolding(crate::specs::Commands::feedback_in))]
fn feedback(alloc: Global, body: &Body<'_>, item: u64) -> Result<Command, Unread>
    ensures { Gives result (feedback_in item (fields_of body.now)) }
{
    let rating = integer(body, Field::Rating)?;
    let text = text(alloc, body, Field::Text)?;
    Ok(Command::Feedback {
        item,
        rating: rating_of(rating),
        text,
    })
}

// A new band table, by its rows.
#[tactic(auto, using(crate::proofs::TableBodies::rows_given, crate::proofs::TableBodies::no_rows, crate::proofs::TableBodies::no_object))]
fn set_bands(alloc: Global, bytes: &[u8]) -> Result<Command, Unread>
    ensures { Gives result (command_of the_path.SetBands bytes.now) }
{
    match read_pairs(alloc, bytes, Field::Bands.name(), "at", "step") {
        Ok(Some(rows)) => Ok(Command::SetBands {
            bands: Rows::new(rows),
        }),
        Ok(None) => Err(Unread::Wrong(Wrong::Field(Field::Bands))),
        Err(BodyFault::NoObject) => Err(Unread::Wrong(Wrong::NoObject)),
        Err(BodyFault::Memory) => Err(Unread::Memory),
    }
}

// The command of a path that has fields, each with nothing inside.
#[tactic(auto, unfolding(crate::specs::Commands::fields_in))]
fn with_fields(alloc: Global, path: CommandPath, body: &Body<'_>) -> Result<Command, Unread>
    requires fields { has_fields path ≡ true }
    requires plain { path ≢ the_path.SetBands }
    ensures { Gives result (fields_in path (fields_of body.now)) }
{
    match path {
        CommandPath::Register => register(alloc, body),
        CommandPath::AddCategory => add_category(alloc, body),
        CommandPath::List => list(alloc, body),
        CommandPath::Bid { item } => bid(body, item),
        CommandPath::Ask { item } => ask(alloc, body, item),
        CommandPath::Answer {
            item,
            asker,
            number,
        } => answer(alloc, body, item, asker, number),
        CommandPath::Feedback { item } => feedback(alloc, body, item),
        _ => unreachable!(),
    }
}

// The command of a path without fields; none where the path has some.
#[tactic(auto, unfolding(crate::specs::Commands::fields_in))]
fn without_fields(path: CommandPath) -> Option<Command>
    ensures { MatchOption result (has_fields path ≡ true)
        (λ command. (has_fields path ≡ false) × (Ok command ≡ fields_in path no_members)) }
{
    match path {
        CommandPath::Buy { item } => Some(Command::Buy { item }),
        CommandPath::Close => Some(Command::Close),
        CommandPath::Settle { item } => Some(Command::Settle { item }),
        CommandPath::Watch { item } => Some(Command::Watch { item }),
        CommandPath::Unwatch { item } => Some(Command::Unwatch { item }),
        _ => None,
    }
}

// The text of a body that is its command's one text alone, as most are.
fn lone_field(path: CommandPath, bytes: &[u8]) -> Option<&str>
    ensures { IfSome result (λ text. option_map Ok (text_in path text.now) ≡ Some (command_of path bytes.now)) }
{
    match path {
        CommandPath::Register => lone_text(bytes, "name"),
        CommandPath::AddCategory => lone_text(bytes, "name"),
        CommandPath::Ask { .. } => lone_text(bytes, "text"),
        CommandPath::Answer { .. } => lone_text(bytes, "text"),
        _ => None,
    }
}

// The command of a path whose one field is a text.
fn of_text(path: CommandPath, text: Text) -> Option<Command>
    ensures { result ≡ text_in path text }
{
    match path {
        CommandPath::Register => Some(Command::Register { name: text }),
        CommandPath::AddCategory => Some(Command::AddCategory { name: text }),
        CommandPath::Ask { item } => Some(Command::Ask { item, text }),
        CommandPath::Answer {
            item,
            asker,
            number,
        } => Some(Command::Answer {
            item,
            asker,
            number,
            text,
        }),
        _ => None,
    }
}

// The command of a body that is its one field alone. Where there is none, the body is read in full.
fn plain(alloc: Global, path: CommandPath, bytes: &[u8]) -> Result<Option<Command>, Unread>
    ensures report { IfOk result (λ found. IfSome found (λ command. command_of path bytes.now ≡ Ok command)) }
    ensures memory { IfErr result (λ unread. unread ≡ Unread.Memory) }
{
    if let CommandPath::Bid { item } = path {
        return match lone_whole(bytes, "maximum") {
            Some(maximum) => Ok(Some(Command::Bid { item, maximum })),
            None => Ok(None),
        };
    }
    match lone_field(path, bytes) {
        Some(text) => Ok(of_text(path, Text::copy_of(alloc, text)?)),
        None => Ok(None),
    }
}

/// The command that a path means with a body.
#[tactic(auto, unfolding(crate::specs::Commands::command_of, crate::specs::Commands::object_at))]
pub fn command(
    alloc: Global,
    path: CommandPath,
    bytes: &[u8],
    scratch: &mut Scratch,
) -> Result<Command, Unread>
    ensures { Gives result (command_of path bytes.now) }
{
    if let Some(command) = without_fields(path) {
        return Ok(command);
    }
    if matches!(path, CommandPath::SetBands) {
        return set_bands(alloc, bytes);
    }
    if let Some(command) = plain(alloc, path, bytes)? {
        return Ok(command);
    }
    let body = match Body::read(alloc, bytes, scratch) {
        Ok(body) => body,
        Err(BodyFault::NoObject) => return Err(Unread::Wrong(Wrong::NoObject)),
        Err(BodyFault::Memory) => return Err(Unread::Memory),
    };
    with_fields(alloc, path, &body)
}
