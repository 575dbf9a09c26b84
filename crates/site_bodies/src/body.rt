//! The object that a body is.

use crate::fault::BodyFault;
use crate::flat::flat_object;
use crate::slots::Flat;
use crate::tree::Tree;
use json::Scratch;
use std::alloc::Global;

// How a body was read: in one walk, or as a tree where it has more than that takes.
#[derive(Drop)]
enum Form<'a> {
    Flat(Flat<'a>),
    Tree(Tree<'a>),
}

/// The object that a body is. Its texts are borrowed.
#[derive(Drop)]
pub struct Body<'a> {
    form: Form<'a>,
}

impl<'a> Body<'a> {
    ghost use Rattle.std.specs.Prelude.{◌≡◌, option_map};
    ghost use Rattle.site_bodies.specs.Body.{IsBody, fields_of};
    ghost use Rattle.site_bodies.specs.Fields.{integer_at, maybe_whole_at, text_at, whole_at};

    /// The object that the bytes are, as `serde_json` reads it. No text is copied.
    pub fn read(
        alloc: Global,
        bytes: &'a [u8],
        scratch: &'a mut Scratch,
    ) -> Result<Body<'a>, BodyFault>
        ensures { IsBody bytes.now result }
    {
        if let Some(flat) = flat_object(bytes) {
            return Ok(Body {
                form: Form::Flat(flat),
            });
        }
        match Tree::read(alloc, bytes, scratch) {
            Ok(tree) => Ok(Body {
                form: Form::Tree(tree),
            }),
            Err(fault) => Err(fault),
        }
    }

    /// The field of that name, if it is a whole number from 0 to 2^64 - 1.
    pub fn whole(&self, name: &str) -> Option<u64>
        ensures { result ≡ whole_at name.now (fields_of self.now) }
    {
        match &self.form {
            Form::Flat(flat) => flat.whole(name),
            Form::Tree(tree) => tree.whole(name),
        }
    }

    /// The field of that name, if it is a whole number from -2^63 to 2^63 - 1.
    pub fn integer(&self, name: &str) -> Option<i64>
        ensures { result ≡ integer_at name.now (fields_of self.now) }
    {
        match &self.form {
            Form::Flat(flat) => flat.integer(name),
            Form::Tree(tree) => tree.integer(name),
        }
    }

    /// The field of that name, if it is a text.
    pub fn text(&self, name: &str) -> Option<&'a str>
        ensures { option_map (λ t. t.now) result ≡ text_at name.now (fields_of self.now) }
    {
        match &self.form {
            Form::Flat(flat) => flat.text(name),
            Form::Tree(tree) => tree.text(name),
        }
    }

    /// The field of that name, if it is a whole number from 0 to 2^64 - 1, or null, or absent.
    pub fn maybe_whole(&self, name: &str) -> Option<Option<u64>>
        ensures { result ≡ maybe_whole_at name.now (fields_of self.now) }
    {
        match &self.form {
            Form::Flat(flat) => flat.maybe_whole(name),
            Form::Tree(tree) => tree.maybe_whole(name),
        }
    }
}
