//! Whether a tree is an object that serde_json reads.
ghost use Rattle.std.specs.Prelude.{◌≡◌, map};
ghost use Rattle.json.specs.Value.{members_view, value_view};
ghost use Rattle.site_bodies.specs.Members.{AreJudged, IsJudged, IsTree, IsValueJudged};

use crate::fault::BodyFault;
use crate::numeral::make_numeric as numeral;
use json::{Error, Reader, Scratch, Value};
use std::alloc::Global;

/// How deep arrays and objects may nest.
const MAX_DEPTH: usize = 127;

/// What was seen of a tree.
#[derive(Clone, Copy)]
pub(crate) enum Judged {
    /// It is an object that serde_json reads.
    Readable,
    /// It isn't.
    Refused,
    /// It is an object with an array or an object inside, at which nobody has looked.
    Deep,
}

// What is seen of one value.
#[tactic(auto, using(crate::proofs::Seen::number_seen))]
fn seen_value(value: &Value<'_>) -> Judged
    ensures { IsValueJudged result (value_view value.now) }
{
    match value {
        Value::Number(text) => {
            if numeral(text).is_some() {
                Judged::Readable
            } else {
                Judged::Refused
            }
        }
        Value::Array(_) | Value::Object(_) => Judged::Deep,
        _ => Judged::Readable,
    }
}

// What is seen of the members of an object.
fn seen_members(members: &[(&str, Value<'_>)]) -> Judged
    ensures { AreJudged result (members_view members.now) }
{
    for member in members {
        match seen_value(&member.1) {
            Judged::Readable => {}
            Judged::Refused => return Judged::Refused,
            Judged::Deep => return Judged::Deep,
        }
    }
    Judged::Readable
}

/// What is seen of a tree.
pub(crate) fn seen(tree: &Value<'_>) -> Judged
    ensures { IsJudged result (value_view tree.now) }
{
    match tree {
        Value::Object(found) => seen_members(found),
        _ => Judged::Refused,
    }
}

/// The tree of a text.
pub(crate) fn tree_of<'a>(
    alloc: Global,
    text: &'a str,
    scratch: &'a mut Scratch,
) -> Result<Value<'a>, BodyFault>
    ensures { IsTree text.now result }
{
    let Ok(mut reader) = Reader::new(text, scratch) else {
        return Err(BodyFault::Memory);
    };
    let tree = match Value::read(alloc, &mut reader, MAX_DEPTH) {
        Ok(tree) => tree,
        Err(Error::OutOfMemory) => return Err(BodyFault::Memory),
        Err(_) => return Err(BodyFault::NoObject),
    };
    if reader.next().is_some() {
        return Err(BodyFault::NoObject);
    }
    Ok(tree)
}
