//! Statements.
ghost use Rattle.std.specs.Prelude.{◌≡◌, ◌++◌, ◌∷◌, [], ◌<◌, ◌^◌, IfOk, IsTrue, OnOk, codes, map};
ghost use Rattle.settle.specs.Statement.{statement_of};
ghost use Rattle.std.specs.Io.{StartsWith};
ghost use Rattle.pages_json.specs.Fields.{are_keys, member_of};
ghost use Rattle.pages_json.specs.Words.{AreInOrder, object_of, text_of, whole};
ghost use Rattle.pages_text.specs.Trees.{line_with, role_of, statement_from, statement_tree};
ghost use Rattle.pages_text.specs.Fits.{AreSales};

use house_rows::Rate;
use pages_json::{Field, Shows, key, put_object, put_object_around};
use settle::{Day, Line, Sold, Totals, Zone, lines};
use std::alloc::{AllocError, Global};

// Lines of statements.
#[derive(Clone, Copy)]
pub(crate) struct AsLines;

// The word for a seller's line, and for a buyer's.
#[tactic(auto, unfolding(crate::specs::Trees::role_of))]
fn role(sell: bool) -> &'static str
    ensures { result.now ≡ role_of sell }
{
    if sell { "sell" } else { "buy" }
}

// The keys of a line, whose day is written so, and what they have.
pub(crate) fn line_fields<'d>(day: &'d str, line: &Line) -> [(&'static str, Field<'d>); 7]
    ensures tree { object_of (map member_of result)
        ≡ line_with day.now (role_of line.now.sell) line.now }
    ensures order { AreInOrder (map member_of result) }
    ensures keys { IsTrue (are_keys result) }
{
    [
        (key!("day"), Field::Text(day)),
        (key!("fee"), Field::Number(line.fee)),
        (key!("item"), Field::Number(u64::from(line.item))),
        (key!("net"), Field::Number(line.net)),
        (key!("other"), Field::Number(u64::from(line.other))),
        (key!("price"), Field::Number(line.price.value())),
        (key!("role"), Field::Text(role(line.sell))),
    ]
}

impl Shows<Line> for AsLines {
    ghost use Rattle.pages_text.specs.Trees.{line_tree};

    ghost tree = { λ _ line. line_tree line };

    fn put(&self, alloc: Global, out: &mut Vec<u8>, line: &Line) -> Result<(), AllocError> {
        let day = format!(in alloc; "{}", line.day)?;
        put_object(alloc, out, &line_fields(day.as_str(), line))
    }
}

// The keys before the lines of a statement, and what they have.
pub(crate) fn front_fields(totals: Totals) -> [(&'static str, Field<'static>); 2]
    ensures members { map member_of result
        ≡ (codes "bought", whole totals.bought) ∷ (codes "fees", whole totals.fees) ∷ [] }
    ensures keys { IsTrue (are_keys result) }
{
    [
        (key!("bought"), Field::Number(totals.bought)),
        (key!("fees"), Field::Number(totals.fees)),
    ]
}

// And those after them.
pub(crate) fn back_fields(member: u64, totals: Totals) -> [(&'static str, Field<'static>); 3]
    ensures members { map member_of result
        ≡ (codes "member", whole member) ∷ (codes "net", whole totals.net)
        ∷ (codes "sold", whole totals.sold) ∷ [] }
    ensures keys { IsTrue (are_keys result) }
{
    [
        (key!("member"), Field::Number(member)),
        (key!("net"), Field::Number(totals.net)),
        (key!("sold"), Field::Number(totals.sold)),
    ]
}

// Appends a statement of these lines and totals.
fn put_rows(
    alloc: Global,
    out: &mut Vec<u8>,
    member: u64,
    rows: &[Line],
    totals: Totals,
) -> Result<(), AllocError>
    ensures text { OnOk result
        (out.new.items ≡ out.old.items ++ text_of (statement_from member rows.now totals)) }
    ensures front { StartsWith out.new.items out.old.items }
{
    put_object_around(
        alloc,
        out,
        &front_fields(totals),
        key!("lines"),
        &AsLines,
        rows,
        &back_fields(member, totals),
    )
}

/// Appends the statement of a member for a period, made of its sales. A period that ends before it
/// begins has no lines.
#[tactic(auto, using(crate::proofs::Periods::no_rows))]
pub(crate) fn put_statement(
    alloc: Global,
    out: &mut Vec<u8>,
    zone: &Zone,
    rate: Rate,
    member: u64,
    from: Day,
    to: Day,
    sales: &[Sold],
) -> Result<(), AllocError>
    requires member { member < 2 ^ 32 }
    requires sales { AreSales sales.now }
    ensures text { OnOk result (out.new.items ≡ out.old.items
        ++ text_of (statement_tree (statement_of sales.now member from to zone.now rate))) }
    ensures front { StartsWith out.new.items out.old.items }
{
    if to < from {
        return put_rows(alloc, out, member, &[], Totals::of(&[]));
    }
    match lines(alloc, sales, member as u32, from, to, zone, rate.value()) {
        Ok(statement) => put_rows(alloc, out, member, statement.rows(), statement.totals()),
        Err(_) => Err(AllocError),
    }
}
