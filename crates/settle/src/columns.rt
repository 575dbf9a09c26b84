//! A record of a table in its seven columns, and the two forms in which it is written.
ghost use Rattle.std.specs.Prelude.{◌≡◌, ◌≤◌, ◌++◌, ◌∷◌, IfOk, OnOk, replicate};
ghost use Rattle.settle.specs.Text.{head, left, padded, record_text, right, separated};

use csv::Writer;
use std::alloc::{AllocError, Global};

/// How a table is written.
#[derive(Clone, Copy)]
pub enum Form {
    /// In columns, filled up with spaces.
    Padded,
    /// As CSV (RFC 4180), lines ending in a line feed.
    Csv,
}

/// What is in the columns of a record.
#[derive(Clone, Copy)]
pub struct Columns<'t> {
    pub day: &'t str,
    pub item: &'t str,
    pub role: &'t str,
    pub other: &'t str,
    pub price: &'t str,
    pub fee: &'t str,
    pub net: &'t str,
}

impl<'t> Columns<'t> {
    ghost use Rattle.settle.specs.Columns.{texts_of};

    /// The names of the columns.
    pub fn names() -> Columns<'static>
        ensures { texts_of result ≡ head }
    {
        Columns {
            day: "day",
            item: "item",
            role: "role",
            other: "other",
            price: "price",
            fee: "fee",
            net: "net",
        }
    }

    /// The record in one of the forms, with the line feed that ends it.
    pub fn record(&self, alloc: Global, form: Form) -> Result<Vec<u8>, AllocError>
        ensures { IfOk result (λ v. v.items ≡ record_text form (texts_of self.now)) }
    {
        match form {
            Form::Padded => self.padded_text(alloc),
            Form::Csv => self.csv_text(alloc),
        }
    }

    fn padded_text(&self, alloc: Global) -> Result<Vec<u8>, AllocError>
        ensures { IfOk result (λ v. v.items ≡ padded (texts_of self.now)) }
    {
        let mut text = Vec::new(alloc);
        put_left(&mut text, 10, self.day)?;
        put_right(&mut text, 8, self.item)?;
        text.push(b' ')?;
        put_left(&mut text, 4, self.role)?;
        put_right(&mut text, 8, self.other)?;
        put_right(&mut text, 14, self.price)?;
        put_right(&mut text, 14, self.fee)?;
        put_right(&mut text, 14, self.net)?;
        text.push(b'\n')?;
        Ok(text)
    }

    fn csv_text(&self, alloc: Global) -> Result<Vec<u8>, AllocError>
        ensures { IfOk result (λ v. v.items ≡ separated (texts_of self.now)) }
    {
        let fields = [
            self.day.as_bytes(),
            self.item.as_bytes(),
            self.role.as_bytes(),
            self.other.as_bytes(),
            self.price.as_bytes(),
            self.fee.as_bytes(),
            self.net.as_bytes(),
        ];
        // A writer over memory fails only where there is none.
        let mut writer = Writer::from_writer(Vec::new(alloc));
        if writer.write_fields(&fields).is_err() {
            return Err(AllocError);
        }
        match writer.into_inner() {
            Ok(text) => Ok(text),
            Err(_) => Err(AllocError),
        }
    }
}

// Appends a text at the left end of a column that is so wide.
fn put_left(line: &mut Vec<u8>, width: usize, text: &str) -> Result<(), AllocError>
    requires { width ≤ 14 }
    ensures { OnOk result (line.new.items ≡ line.old.items ++ left width text.now) }
{
    line.extend_from_slice(text.as_bytes())?;
    fill(line, width.saturating_sub(text.len()))
}

// Appends a space, and a text at the right end of a column that is so wide.
fn put_right(line: &mut Vec<u8>, width: usize, text: &str) -> Result<(), AllocError>
    requires { width ≤ 14 }
    ensures { OnOk result (line.new.items ≡ line.old.items ++ 32 ∷ right width text.now) }
{
    line.push(b' ')?;
    fill(line, width.saturating_sub(text.len()))?;
    line.extend_from_slice(text.as_bytes())
}

// Appends so many spaces.
fn fill(line: &mut Vec<u8>, count: usize) -> Result<(), AllocError>
    requires { count ≤ 14 }
    ensures { OnOk result (line.new.items ≡ line.old.items ++ replicate count 32) }
{
    for _ in 0..count {
        line.push(b' ')?;
    }
    Ok(())
}
