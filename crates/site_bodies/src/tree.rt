//! The object that a body is, as a tree.
ghost use Rattle.std.specs.Prelude.{◌≡◌, is_some, option_map, true};
ghost use Rattle.json.specs.Value.{value_view};
ghost use Rattle.serde_json.specs.Read.{of_json};
ghost use Rattle.site_bodies.specs.Values.{integer_in, maybe_whole_in, whole_in};
ghost use Rattle.site_bodies.specs.Members.{Reads, members_in};

use crate::fault::BodyFault;
use crate::judged::{Judged, seen, tree_of};
use crate::numeral::{integer, whole};
use json::{Scratch, Value};
use std::alloc::Global;

/// The object that a body is. Its texts are borrowed.
#[derive(Drop)]
pub(crate) struct Tree<'a> {
    value: Value<'a>,
    ghost read: { is_some (members_in (value_view value)) ≡ true },
}

// Whether serde_json reads the bytes; asked only of an object with an array or an object inside.
fn reads(alloc: Global, bytes: &[u8]) -> Result<(), BodyFault>
    ensures { Reads bytes.now result }
{
    match serde_json::Value::from_slice(alloc, bytes) {
        Ok(value) => {
            drop(value);
            return Ok(());
        }
        Err(e) => {
            if e.is_memory() {
                return Err(BodyFault::Memory);
            }
            return Err(BodyFault::NoObject);
        }
    }
}

// The whole number that a value is.
#[tactic(auto, using(crate::proofs::Report::array_no_number, crate::proofs::Report::object_no_number, crate::proofs::Report::number_back))]
fn whole_of(value: &Value<'_>) -> Option<u64>
    ensures { result ≡ whole_in (of_json (value_view value.now)) }
{
    match value {
        Value::Number(text) => whole(text),
        _ => None,
    }
}

// The whole number with a sign that a value is.
#[tactic(auto, using(crate::proofs::Report::array_no_number, crate::proofs::Report::object_no_number, crate::proofs::Report::number_back))]
fn integer_of(value: &Value<'_>) -> Option<i64>
    ensures { result ≡ integer_in (of_json (value_view value.now)) }
{
    match value {
        Value::Number(text) => integer(text),
        _ => None,
    }
}

// The whole number that a value is, or none where it is null. A number that is too large isn't in
// an object that was read.
#[tactic(auto, using(crate::proofs::Report::maybe_array, crate::proofs::Report::maybe_object, crate::proofs::Report::maybe_number))]
fn maybe_whole_of(value: &Value<'_>) -> Option<Option<u64>>
    requires { is_some (of_json (value_view value.now)) ≡ true }
    ensures { result ≡ maybe_whole_in (of_json (value_view value.now)) }
{
    match value {
        Value::Null => Some(None),
        Value::Number(text) => whole(text).map(Some),
        _ => None,
    }
}

impl<'a> Tree<'a> {
    ghost use Rattle.site_bodies.specs.Tree.{IsTreeOf, tree_fields};
    ghost use Rattle.site_bodies.specs.Fields.{integer_at, maybe_whole_at, text_at, whole_at};

    /// The object that the bytes are, as `serde_json` reads it. No text is copied.
    pub(crate) fn read(
        alloc: Global,
        bytes: &'a [u8],
        scratch: &'a mut Scratch,
    ) -> Result<Tree<'a>, BodyFault>
        ensures { IsTreeOf bytes.now result }
    {
        let Ok(text) = simdutf8::compat::from_utf8(bytes) else {
            return Err(BodyFault::NoObject);
        };
        let tree = match tree_of(alloc, text, scratch) {
            Ok(tree) => tree,
            Err(fault) => return Err(fault),
        };
        match seen(&tree) {
            Judged::Readable => return Ok(Tree { value: tree }),
            Judged::Refused => return Err(BodyFault::NoObject),
            Judged::Deep => match reads(alloc, bytes) {
                Ok(()) => return Ok(Tree { value: tree }),
                Err(fault) => return Err(fault),
            },
        }
    }

    /// The field of that name, if it is a whole number from 0 to 2^64 - 1.
    pub(crate) fn whole(&self, name: &str) -> Option<u64>
        ensures { result ≡ whole_at name.now (tree_fields self.now) }
    {
        match self.value.get(name) {
            Some(value) => whole_of(value),
            None => None,
        }
    }

    /// The field of that name, if it is a whole number from -2^63 to 2^63 - 1.
    pub(crate) fn integer(&self, name: &str) -> Option<i64>
        ensures { result ≡ integer_at name.now (tree_fields self.now) }
    {
        match self.value.get(name) {
            Some(value) => integer_of(value),
            None => None,
        }
    }

    /// The field of that name, if it is a text.
    pub(crate) fn text(&self, name: &str) -> Option<&'a str>
        ensures { option_map (λ t. t.now) result ≡ text_at name.now (tree_fields self.now) }
    {
        match self.value.get(name) {
            Some(value) => value.as_str(),
            None => None,
        }
    }

    /// The field of that name, if it is a whole number from 0 to 2^64 - 1, or null, or absent.
    pub(crate) fn maybe_whole(&self, name: &str) -> Option<Option<u64>>
        ensures { result ≡ maybe_whole_at name.now (tree_fields self.now) }
    {
        match self.value.get(name) {
            Some(value) => maybe_whole_of(value),
            None => Some(None),
        }
    }
}
