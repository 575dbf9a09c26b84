//! The close of every item that is due.
ghost use Rattle.std.specs.Prelude.{◌≡◌, ◌<◌, ◌^◌, false, OnOk, IsErrOf};
ghost use Rattle.sqlite.specs.State.{HasCleanDisk};
ghost use Rattle.sqlite.specs.Held.{state};
ghost use Rattle.house_rows.specs.Tables.{band_tables};
ghost use Rattle.house_rows.specs.Fits.{IsMoment};
ghost use Rattle.house_rows.specs.Items.{is_due};
ghost use Rattle.house_rows.specs.Keeping.{FitsBy};
ghost use Rattle.house_rows.specs.declared.change.Change.TheVariants.{Close};
ghost use Rattle.house_rows.specs.declared.fault.KeepFault.TheVariants.{Damaged};
ghost use Rattle.store_rows.specs.House.{IsBegun, ServesBy};
ghost use Rattle.house_rows.specs.Taken.{FitWhere};
ghost use Rattle.store_rows.specs.ItemRows.{items_in};
ghost use Rattle.store_rows.specs.Rows.{reserves_in};
ghost use Rattle.store_rows.specs.Tables.{Changes, IsNumbered, Rests, tables_in};
ghost use Rattle.store_items.specs.ConsistentRows.{RowsFit, RowsAreConsistent, RowsAreKept};
ghost use Rattle.store_items.specs.Items.{SetsItems};
ghost use Rattle.store_selling.specs.Sales.{IsDue, StartsFit, with_ends};
ghost use Rattle.store_rows.specs.Frames.{Finds, WritesMany};
ghost use Rattle.store_rows.specs.Commits.{Commits};
ghost use Rattle.store_items.specs.LookUps.{ItemsFitBy};
ghost use Rattle.store_selling.specs.LookUps.{TakesDue};

use crate::sold_rule::close_sells;
use house_rows::{KeepFault, Terms};
use sqlite::{Alter, Connection, Transaction};
use std::alloc::Global;
use store_items::{due_terms, set_closed};
use store_rows::{Rules, commit, set_clock, stored_moment};

// The items that are due, whose terms fit and are consistent.
fn find_due<S: Alter>(
    alloc: Global,
    conn: &mut Connection<S>,
    rules: &Rules,
    moment: u32,
) -> Result<Vec<Terms>, KeepFault>
    requires { ServesBy rules.now.reserves (state S.Store conn.old) }
    ensures { Finds S.Store conn.old conn.new result
        (λ db due. TakesDue rules.now.editions moment db due.items)
        (ItemsFitBy rules.now.editions (λ row. is_due moment row.item.terms)) }
{
    due_terms(alloc, conn, rules, moment)
}

// Closes the items within a transaction, each as sold where the close sells it.
fn close_items<S: Alter>(tx: &mut Transaction<'_, S>, due: &[Terms]) -> Result<(), KeepFault>
    requires begun { IsBegun (state S.Store tx.old.conn.now) }
    requires fits { HasCleanDisk (state S.Store tx.old.conn.now)
        → StartsFit due.now (state S.Store tx.old.conn.now).now }
    ensures same_reference { tx.new.conn.ghost_name ≡ tx.old.conn.ghost_name }
    ensures ok { HasCleanDisk (state S.Store tx.new.conn.now)
        → OnOk result (SetsItems (with_ends due.now) (state S.Store tx.old.conn.now).now
        (state S.Store tx.new.conn.now).now) }
    ensures sound { ¬ (IsErrOf result Damaged) }
    ensures write { WritesMany (state S.Store tx.old.conn.now)
        (state S.Store tx.new.conn.now) result }
{
    for terms in due {
        set_closed(tx, terms.item, close_sells(terms))?;
    }
    Ok(())
}

// Closes the items that are due and sets the clock, within a transaction.
fn write_close<S: Alter>(
    tx: &mut Transaction<'_, S>,
    moment: u32,
    due: &[Terms],
) -> Result<(), KeepFault>
    requires begun { IsBegun (state S.Store tx.old.conn.now) }
    requires numbered { HasCleanDisk (state S.Store tx.old.conn.now)
        → IsNumbered (state S.Store tx.old.conn.now).now.trees }
    requires due { HasCleanDisk (state S.Store tx.old.conn.now)
        → IsDue moment due.now (state S.Store tx.old.conn.now).now.trees }
    ensures same_reference { tx.new.conn.ghost_name ≡ tx.old.conn.ghost_name }
    ensures ok { HasCleanDisk (state S.Store tx.new.conn.now)
        → OnOk result (Changes (Close moment) (state S.Store tx.old.conn.now).now
        (state S.Store tx.new.conn.now).now) }
    ensures sound { ¬ (IsErrOf result Damaged) }
    ensures write { WritesMany (state S.Store tx.old.conn.now)
        (state S.Store tx.new.conn.now) result }
{
    close_items(tx, due)?;
    set_clock(tx, moment)
}

/// Closes every open item whose end is at or before the moment: sold where somebody leads and no
/// reserve is unmet, else unsold. The moment is in seconds since 1970-01-01T00:00:00Z, the band
/// tables and the reserves are those of the house. Damaged where the terms of an item that is due
/// don't fit or aren't consistent, or where the moment has more than 32 bits.
pub fn close<S: Alter>(
    conn: &mut Connection<S>,
    rules: &Rules,
    alloc: Global,
    moment: u64,
) -> Result<(), KeepFault>
    requires rests { Rests (state S.Store conn.old) }
    requires mode { conn.old.in_transaction ≡ false }
    requires editions { HasCleanDisk (state S.Store conn.old)
        → rules.now.editions ≡ band_tables (tables_in (state S.Store conn.old).now.trees) }
    requires reserves { HasCleanDisk (state S.Store conn.old)
        → rules.now.reserves ≡ reserves_in (state S.Store conn.old).now.trees }
    ensures commit { Commits (Close moment) (state S.Store conn.old)
        (state S.Store conn.new) result }
    ensures fits { HasCleanDisk (state S.Store conn.new)
        → OnOk result (RowsFit (λ row. is_due moment row.item.terms)
        (state S.Store conn.old).now.trees) }
    ensures is_consistent { HasCleanDisk (state S.Store conn.new)
        → OnOk result (RowsAreConsistent rules.now.editions (λ row. is_due moment row.item.terms)
        (state S.Store conn.old).now.trees) }
    ensures kept { HasCleanDisk (state S.Store conn.new)
        → OnOk result (RowsAreKept rules.now.editions (λ row. is_due moment row.item.terms)
        (state S.Store conn.old).now.trees) }
    ensures moment { OnOk result (moment < 2 ^ 32) }
    ensures damaged { HasCleanDisk (state S.Store conn.new)
        → IsMoment moment
        → FitWhere (λ row. is_due moment row.item.terms) (FitsBy rules.now.editions)
        (items_in (state S.Store conn.old).now.trees)
        → ¬ (IsErrOf result Damaged) }
{
    let moment = stored_moment(moment)?;
    let due = find_due(alloc, conn, rules, moment)?;
    let mut tx = conn.transaction();
    write_close(&mut tx, moment, &due)?;
    commit(tx)
}
