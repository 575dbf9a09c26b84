//! The changes, each made by the function that writes its rows.
ghost use Rattle.std.specs.Prelude.{◌≡◌, ◌≤◌, ◌+◌, false, length, IfSome, OnOk, IsErrOf};
ghost use Rattle.sqlite.specs.State.{HasCleanDisk};
ghost use Rattle.sqlite.specs.Held.{state};
ghost use Rattle.house_rows.specs.Asks.{ChangeFits, IsFree};
ghost use Rattle.house_rows.specs.Found.{counts_of};
ghost use Rattle.house_rows.specs.Making.{ChangeRowsFit};
ghost use Rattle.house_rows.specs.Limits.{most_items};
ghost use Rattle.house_rows.specs.Tables.{band_tables};
ghost use Rattle.house_rows.specs.declared.change.Change.TheVariants.{SetBands};
ghost use Rattle.house_rows.specs.declared.fault.KeepFault.TheVariants.{Damaged};
ghost use Rattle.steps.specs.Table.{IsBandTable};
ghost use Rattle.store_rows.specs.Rows.{edition_rows_in, reserves_in};
ghost use Rattle.store_rows.specs.Tables.{Rests, reserves_after, tables_in};
ghost use Rattle.store_rows.specs.Commits.{Commits};
ghost use Rattle.store_items.specs.Seen.{IsSeen};
ghost use Rattle.store.specs.After.{bands_set, counts_after, with_table};

use house_rows::{Auction, Change, Counts, KeepFault};
use sqlite::{Alter, Connection};
use std::alloc::Global;
use store_bids::bid;
use store_house::{add_category, register};
use store_open::set_bands;
use store_rows::Rules;
use store_selling::{buy, close, list, settle};
use store_talk::{answer, ask, give_feedback};
use store_watches::{unwatch, watch};

// Sets a band table as the next edition, which begins with the item after so many.
fn set_next<S: Alter>(
    conn: &mut Connection<S>,
    edition: u32,
    items: u32,
    moment: u64,
    bands: &[(u64, u64)],
) -> Result<(), KeepFault>
    requires valid { IsBandTable bands.now }
    requires rests { Rests (state S.Store conn.old) }
    requires mode { conn.old.in_transaction ≡ false }
    requires next { HasCleanDisk (state S.Store conn.old)
        → edition ≡ length (edition_rows_in (state S.Store conn.old).now.trees) + 2 }
    requires counted { HasCleanDisk (state S.Store conn.old)
        → items ≡ (counts_of (tables_in (state S.Store conn.old).now.trees)).items }
    ensures commit { Commits (SetBands moment bands.entry) (state S.Store conn.old)
        (state S.Store conn.new) result }
    ensures damaged { HasCleanDisk (state S.Store conn.new)
        → length (tables_in (state S.Store conn.old).now.trees).items ≤ most_items
        → ChangeFits (tables_in (state S.Store conn.old).now.trees) (SetBands moment bands.entry)
        → ¬ (IsErrOf result Damaged) }
{
    let Some(first) = items.checked_add(1) else {
        return Err(KeepFault::Damaged);
    };
    set_bands(conn, edition, first, moment, bands)
}

/// Makes a change. The counts and the rules are those after it, and what was seen of an item is so
/// before it.
pub(crate) fn make_change<S: Alter>(
    alloc: Global,
    conn: &mut Connection<S>,
    rules: &Rules,
    seen: &Option<Auction>,
    after: Counts,
    change: &Change<'_>,
) -> Result<(), KeepFault>
    requires rests { Rests (state S.Store conn.old) }
    requires mode { conn.old.in_transaction ≡ false }
    requires editions { HasCleanDisk (state S.Store conn.old) → rules.now.editions ≡ with_table
        (band_tables (tables_in (state S.Store conn.old).now.trees)) after.items
        (bands_set change.now) }
    requires reserves { HasCleanDisk (state S.Store conn.old) → rules.now.reserves ≡ reserves_after
        (reserves_in (state S.Store conn.old).now.trees) after.items change.now }
    requires counted { HasCleanDisk (state S.Store conn.old)
        → after ≡ counts_after (counts_of (tables_in
        (state S.Store conn.old).now.trees)) change.now }
    requires valid { IfSome (bands_set change.now) IsBandTable }
    requires seen { IsSeen (band_tables (tables_in (state S.Store conn.old).now.trees)) seen.now
        (state S.Store conn.old) }
    ensures commit { Commits change.now (state S.Store conn.old) (state S.Store conn.new) result }
    ensures taken { HasCleanDisk (state S.Store conn.new)
        → OnOk result (IsFree (tables_in (state S.Store conn.old).now.trees) change.now) }
    ensures damaged { HasCleanDisk (state S.Store conn.new)
        → ChangeFits (tables_in (state S.Store conn.old).now.trees) change.now
        → ChangeRowsFit (tables_in (state S.Store conn.old).now.trees) change.now
        → IsFree (tables_in (state S.Store conn.old).now.trees) change.now
        → ¬ (IsErrOf result Damaged) }
{
    match *change {
        Change::Register { moment, name } => register(conn, after.members, moment, name),
        Change::AddCategory { moment, name } => {
            add_category(conn, after.categories, moment, name)
        }
        Change::List { moment, ref item } => list(conn, after.items, moment, item),
        Change::Bid {
            moment,
            item,
            placed,
            standing,
        } => bid(conn, rules, seen, moment, item, placed, &standing),
        Change::Buy {
            moment,
            item,
            buyer,
            price,
        } => buy(conn, rules, seen, moment, item, buyer, price),
        Change::Settle { moment, item } => settle(conn, rules, seen, moment, item),
        Change::Watch { member, item } => watch(conn, member, item),
        Change::Unwatch { member, item } => unwatch(conn, member, item),
        Change::Ask {
            item,
            asker,
            number,
            text,
        } => ask(conn, item, asker, number, text),
        Change::Answer {
            moment,
            item,
            asker,
            number,
            text,
        } => answer(conn, moment, item, asker, number, text),
        Change::Feedback {
            moment,
            item,
            from,
            to,
            rating,
            text,
        } => give_feedback(conn, moment, item, from, to, rating, text),
        Change::Close { moment } => close(conn, rules, alloc, moment),
        Change::SetBands { moment, bands } => {
            set_next(conn, rules.editions.newest(), after.items, moment, bands)
        }
    }
}
