//! The order of a lot, as a message.
ghost use Rattle.std.specs.Prelude.{if◌then◌else◌, ◌≡◌, None, Some, IfOk, IsTrue, OnOk, map};
ghost use Rattle.pages_json.specs.Fields.{are_keys, member_of};
ghost use Rattle.pages_json.specs.Words.{object_of};
ghost use Rattle.office.specs.Orders.{framed, message_of, tree_with};

use crate::lot::Lot;
use itoa::Buffer;
use pages_json::{Field, Shows, append, key, put_object};
use std::alloc::{AllocError, Global};

// The longest body that a message may have.
const MOST_BODY: usize = 16_384;

/// Who lists, and when.
#[derive(Clone, Copy)]
pub struct Lister {
    /// The number of the member.
    pub member: u64,
    /// The moment, in seconds after the beginning of 1970.
    pub moment: u64,
}

// The keys of a lot that can't be bought at once, and what they have.
fn plain_fields<'a>(lot: &Lot<'a>) -> [(&'static str, Field<'a>); 6]
    ensures tree { object_of (map member_of result) ≡ tree_with lot.now None }
    ensures keys { IsTrue (are_keys result) }
{
    [
        (key!("category"), Field::Number(lot.category)),
        (key!("end"), Field::Number(lot.end)),
        (key!("lot"), Field::Text(lot.lot)),
        (key!("start"), Field::Number(lot.start)),
        (key!("text"), Field::Text(lot.text)),
        (key!("title"), Field::Text(lot.title)),
    ]
}

// And those of one that can.
fn fields_with<'a>(lot: &Lot<'a>, buy_now: u64) -> [(&'static str, Field<'a>); 7]
    ensures tree { object_of (map member_of result) ≡ tree_with lot.now (Some buy_now) }
    ensures keys { IsTrue (are_keys result) }
{
    [
        (key!("buy_now"), Field::Number(buy_now)),
        (key!("category"), Field::Number(lot.category)),
        (key!("end"), Field::Number(lot.end)),
        (key!("lot"), Field::Text(lot.lot)),
        (key!("start"), Field::Number(lot.start)),
        (key!("text"), Field::Text(lot.text)),
        (key!("title"), Field::Text(lot.title)),
    ]
}

// Lots, as the bodies of their orders.
#[derive(Clone, Copy)]
struct AsOrders;

impl<'a> Shows<Lot<'a>> for AsOrders {
    ghost use Rattle.office.specs.Orders.{lot_tree};

    ghost tree = { λ _ lot. lot_tree lot };

    fn put(&self, alloc: Global, out: &mut Vec<u8>, lot: &Lot<'a>) -> Result<(), AllocError> {
        match lot.buy_now {
            None => put_object(alloc, out, &plain_fields(lot)),
            Some(buy_now) => put_object(alloc, out, &fields_with(lot, buy_now)),
        }
    }
}

// Writes the order with a body, over what the text had.
fn frame(text: &mut Vec<u8>, by: Lister, body: &[u8]) -> Result<(), AllocError>
    ensures { OnOk result (text.new.items ≡ framed by body.now) }
{
    let mut digits = Buffer::new();
    text.clear();
    text.extend_from_slice(b"POST /items HTTP/1.1\r\nhost: h\r\nx-member: ")?;
    text.extend_from_slice(digits.format(by.member).as_bytes())?;
    text.extend_from_slice(b"\r\nx-moment: ")?;
    text.extend_from_slice(digits.format(by.moment).as_bytes())?;
    text.extend_from_slice(b"\r\ncontent-length: ")?;
    text.extend_from_slice(digits.format(body.len()).as_bytes())?;
    text.extend_from_slice(b"\r\n\r\n")?;
    text.extend_from_slice(body)?;
    Ok(())
}

/// The room in which orders are written, kept from one row to the next.
#[derive(Drop)]
pub struct Room {
    alloc: Global,
    body: Vec<u8>,
    pub(crate) text: Vec<u8>,
}

impl Room {
    /// Room in which nothing is written.
    pub fn new(alloc: Global) -> Room {
        Room {
            alloc,
            body: Vec::new(alloc),
            text: Vec::new(alloc),
        }
    }

    /// Writes the order of a lot, and says whether its body is short enough for a message. If not,
    /// there is no order.
    pub fn write(&mut self, by: Lister, lot: &Lot<'_>) -> Result<bool, AllocError>
        ensures { IfOk result (λ fits.
            message_of by lot.now ≡ (if fits then Some self.new.text.items else None)) }
    {
        self.body.clear();
        append(self.alloc, &mut self.body, &AsOrders, lot)?;
        if self.body.len() > MOST_BODY {
            return Ok(false);
        }
        frame(&mut self.text, by, &self.body)?;
        Ok(true)
    }
}
