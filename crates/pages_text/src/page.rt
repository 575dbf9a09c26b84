//! Pages.
ghost use Rattle.std.specs.Prelude.{◌≡◌, ◌++◌, IsTrue, OnErr, OnOk, map};
ghost use Rattle.std.specs.Io.{StartsWith};
ghost use Rattle.pages_json.specs.Fields.{are_keys, member_of};
ghost use Rattle.pages_json.specs.Words.{AreInOrder, object_of, text_of};
ghost use Rattle.pages_text.specs.Fits.{PageFits};
ghost use Rattle.pages_text.specs.Trees.{house_tree, page_tree, rated_tree};

use crate::entries::{AsBands, AsCategories, AsFeedback, AsOwnBids, AsOwnReserves, AsQuestions};
use crate::item::AsItems;
use crate::refused::AsRefusals;
use crate::statement::put_statement;
use house_rows::{Counts, Member, Page, Rate, Ratings};
use pages_json::{Field, Shows, finish, key, put_list, put_object};
use settle::Zone;
use std::alloc::{AllocError, Global};

// The keys of what the house shows of itself, and what they have.
pub(crate) fn house_fields<'z>(
    counts: &Counts,
    clock: u64,
    rate: Rate,
    zone: &'z str,
) -> [(&'static str, Field<'z>); 6]
    ensures tree { object_of (map member_of result) ≡ house_tree counts.now clock rate zone.now }
    ensures order { AreInOrder (map member_of result) }
    ensures keys { IsTrue (are_keys result) }
{
    [
        (
            key!("categories"),
            Field::Number(u64::from(counts.categories)),
        ),
        (key!("clock"), Field::Number(clock)),
        (key!("items"), Field::Number(u64::from(counts.items))),
        (key!("members"), Field::Number(u64::from(counts.members))),
        (key!("rate"), Field::Number(rate.value())),
        (key!("zone"), Field::Text(zone)),
    ]
}

// The keys of a member with its ratings, and what they have.
pub(crate) fn rated_fields<'m>(
    member: &'m Member,
    ratings: &Ratings,
) -> [(&'static str, Field<'m>); 5]
    ensures tree { object_of (map member_of result) ≡ rated_tree member.now ratings.now }
    ensures order { AreInOrder (map member_of result) }
    ensures keys { IsTrue (are_keys result) }
{
    [
        (key!("member"), Field::Number(u64::from(member.member))),
        (key!("minus"), Field::Number(ratings.minus)),
        (key!("name"), Field::Text(member.name.as_str())),
        (key!("plus"), Field::Number(ratings.plus)),
        (key!("zero"), Field::Number(ratings.zero)),
    ]
}

// Appends a page.
fn put_page(alloc: Global, out: &mut Vec<u8>, zone: &Zone, page: &Page) -> Result<(), AllocError>
    requires { PageFits page.now }
    ensures text { OnOk result
        (out.new.items ≡ out.old.items ++ text_of (page_tree zone.now page.now)) }
    ensures front { StartsWith out.new.items out.old.items }
{
    match page {
        Page::Refused(refusal) => AsRefusals.put(alloc, out, refusal),
        Page::House {
            counts,
            clock,
            rate,
            zone: its_zone,
        } => {
            put_object(
                alloc,
                out,
                &house_fields(counts, *clock, *rate, its_zone.as_str()),
            )
        }
        Page::Bands(bands) => put_list(alloc, out, key!("bands"), &AsBands, bands.as_slice()),
        Page::Categories(rows) => put_list(
            alloc,
            out,
            key!("categories"),
            &AsCategories,
            rows.as_slice(),
        ),
        Page::Items(items) => put_list(alloc, out, key!("items"), &AsItems, items.as_slice()),
        Page::OneItem(item) => AsItems.put(alloc, out, item),
        Page::Questions(rows) => put_list(
            alloc,
            out,
            key!("questions"),
            &AsQuestions,
            rows.as_slice(),
        ),
        Page::OneMember { member, ratings } => put_object(
            alloc,
            out,
            &rated_fields(member, ratings),
        ),
        Page::Feedbacks(rows) => put_list(
            alloc,
            out,
            key!("feedback"),
            &AsFeedback,
            rows.as_slice(),
        ),
        Page::Bids(bids) => put_list(alloc, out, key!("bids"), &AsOwnBids, bids.as_slice()),
        Page::Reserves(rows) => put_list(
            alloc,
            out,
            key!("reserves"),
            &AsOwnReserves,
            rows.as_slice(),
        ),
        Page::Statement {
            member,
            from,
            to,
            rate,
            sales,
        } => put_statement(
            alloc,
            out,
            zone,
            *rate,
            *member,
            *from,
            *to,
            sales.as_slice(),
        ),
    }
}

/// Appends the text of a page to a buffer; the days of a statement are those of the zone. After an `Err`
/// the buffer has what it had.
pub fn append_page(
    alloc: Global,
    out: &mut Vec<u8>,
    zone: &Zone,
    page: &Page,
) -> Result<(), AllocError>
    requires { PageFits page.now }
    ensures ok { OnOk result
        (out.new.items ≡ out.old.items ++ text_of (page_tree zone.now page.now)) }
    ensures err { OnErr result (out.new.items ≡ out.old.items) }
{
    let before = out.len();
    let put = put_page(alloc, out, zone, page);
    finish(out, before, put)
}
