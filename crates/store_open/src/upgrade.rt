//! A house of version 1 is made one of version 2.
//!
//! One transaction makes the tables and sets the version. The house is read within it, so what has to
//! fit is known to fit before anything is committed.
ghost use Rattle.std.specs.Prelude.{◌≡◌, ◌≢◌, true, false, None, Some, IfErr, IfOk, OnErr, OnOk, IsErrOf, IsTrue};
ghost use Rattle.sqlite.specs.Held.{state};
ghost use Rattle.sqlite.specs.State.{HasCleanDisk, KeepsCommit, Shows, Survives};
ghost use Rattle.sqlite_trees.specs.View.{IsClean};
ghost use Rattle.house_rows.specs.Fits.{IsMoment};
ghost use Rattle.house_rows.specs.declared.fault.KeepFault.TheVariants.{Damaged, Store};
ghost use Rattle.store_rows.specs.House.{IsFirstHouse, IsInside, Serves};
ghost use Rattle.store_rows.specs.Frames.{Finds};
ghost use Rattle.store_rows.specs.Tables.{version_in};
ghost use Rattle.store_open.specs.Opened.{IsOpenedHouse};
ghost use Rattle.store_house.specs.Named.{FollowsInOrder, FollowsOrGrowsInOrder, HoldsSound};
ghost use Rattle.store_house.specs.Named.{HoldsSoundFirst, IsArranged, UpgradesHeld};
ghost use Rattle.store_house.specs.Opening.{AreNumbered, Follows, FollowsOrGrows, HasEditions};
ghost use Rattle.store_house.specs.Opening.{HasReserves, HasSettings, HaveNumbers, IsFirstSetUp};
ghost use Rattle.store_house.specs.Opening.{IsSoundFirst, Upgraded, Upgrades};
ghost use Rattle.store_house.specs.Over.{over_numbers};

use crate::house::Opened;
use crate::open::{opened_house, read_house};
use house_rows::{Counts, Editions, KeepFault};
use sqlite::{Alter, Connection};
use sqlite_trees::store::Store;
use std::alloc::Global;
use store_house::either_by_names;
use store_rows::{Reserves, add_tables, begin, end, set_version, stored_version};
use tree_order::Renumbered;

// The version of a house that is upgraded.
const FIRST_VERSION: u32 = 1;

// Damaged where the row of the house doesn't have version 1.
fn check_first<S: Alter>(conn: &mut Connection<S>) -> Result<(), KeepFault>
    requires { Serves (state S.Store conn.old) }
    ensures { Finds S.Store conn.old conn.new result
        (λ db _. version_in db ≡ Some 1) (λ db. version_in db ≡ Some 1) }
{
    if stored_version(conn)? == Some(FIRST_VERSION) {
        Ok(())
    } else {
        Err(KeepFault::Damaged)
    }
}

// Adds the tables and sets the version, within a transaction that it begins.
fn grow<S: Alter>(conn: &mut Connection<S>) -> Result<(), KeepFault>
    requires first { HasCleanDisk (state S.Store conn.old)
        → IsTrue (state S.Store conn.old).is_open × IsFirstHouse (state S.Store conn.old).now }
    ensures ok { HasCleanDisk (state S.Store conn.new)
        → OnOk result (Upgrades (state S.Store conn.old).now.trees (state S.Store conn.new).now) }
    ensures inside { HasCleanDisk (state S.Store conn.new)
        → OnOk result (IsInside (state S.Store conn.old) (state S.Store conn.new)) }
    ensures damaged { HasCleanDisk (state S.Store conn.new)
        → version_in (state S.Store conn.old).now.trees ≡ Some 1
        → ¬ (IsErrOf result Damaged) }
    ensures crash { Survives (state S.Store conn.old) (state S.Store conn.new) (λ _. ⊥) }
{
    begin(conn)?;
    add_tables(conn)?;
    check_first(conn)?;
    set_version(conn)
}

// Commits what was written in the transaction, and sees that none is open.
fn finish<S: Alter>(conn: &mut Connection<S>) -> Result<(), KeepFault>
    requires begun { HasCleanDisk (state S.Store conn.old) → IsTrue conn.old.in_transaction }
    ensures ok { HasCleanDisk (state S.Store conn.new)
        → OnOk result (Shows (state S.Store conn.old) (state S.Store conn.new)
        (state S.Store conn.old).now (state S.Store conn.old).now false) }
    ensures mode { OnOk result (conn.new.in_transaction ≡ false) }
    ensures err { HasCleanDisk (state S.Store conn.new)
        → OnErr result (KeepsCommit (state S.Store conn.old) (state S.Store conn.new)) }
    ensures sound { ¬ (IsErrOf result Damaged) }
    ensures crash { Survives (state S.Store conn.old) (state S.Store conn.new)
        (λ db. db ≡ (state S.Store conn.old).now.trees) }
{
    end(conn)?;
    if conn.is_autocommit() {
        Ok(())
    } else {
        Err(KeepFault::Store)
    }
}

// Upgrades a house of version 1 and reads it; nothing is committed where anything doesn't fit.
fn upgrade_read<S: Alter>(
    alloc: Global,
    conn: &mut Connection<S>,
) -> Result<(Editions, u64, Counts, Reserves), KeepFault>
    requires first { HasCleanDisk (state S.Store conn.old)
        → IsTrue (state S.Store conn.old).is_open × IsFirstHouse (state S.Store conn.old).now }
    ensures upgraded { HasCleanDisk (state S.Store conn.new)
        → OnOk result (Upgrades (state S.Store conn.old).now.trees (state S.Store conn.new).now) }
    ensures rests { HasCleanDisk (state S.Store conn.new)
        → OnOk result (IsTrue (state S.Store conn.new).is_open
        × ((state S.Store conn.new).now ≡ (state S.Store conn.new).committed)) }
    ensures settings { HasCleanDisk (state S.Store conn.new)
        → IfOk result (λ read. HasSettings (state S.Store conn.new).now.trees read.0.settings
        read.1) }
    ensures editions { HasCleanDisk (state S.Store conn.new)
        → IfOk result (λ read. HasEditions (state S.Store conn.new).now.trees read.0.later) }
    ensures moment { IfOk result (λ read. IsMoment read.1) }
    ensures counts { HasCleanDisk (state S.Store conn.new)
        → IfOk result (λ read. HaveNumbers (state S.Store conn.new).now.trees read.2) }
    ensures reserves { HasCleanDisk (state S.Store conn.new)
        → IfOk result (λ read. HasReserves (state S.Store conn.new).now.trees read.3) }
    ensures mode { OnOk result (conn.new.in_transaction ≡ false) }
    ensures damaged { HasCleanDisk (state S.Store conn.new)
        → IsFirstSetUp (state S.Store conn.old).now.trees
        → AreNumbered (state S.Store conn.old).now.trees
        → ¬ (IsErrOf result Damaged) }
    ensures err { HasCleanDisk (state S.Store conn.new)
        → IsTrue (state S.Store conn.new).is_open
        → OnErr result ((state S.Store conn.new).committed.trees
        ≡ (state S.Store conn.old).committed.trees) }
    ensures crash { Survives (state S.Store conn.old) (state S.Store conn.new)
        (Upgraded (state S.Store conn.old).now.trees) }
{
    grow(conn)?;
    let read = read_house(alloc, conn)?;
    finish(conn)?;
    Ok(read)
}

// Upgrades the house of version 1 that a connection holds. After an error its store is given back: it
// is as it was, or it failed while all was committed.
fn upgrade_first<S: Alter + Drop>(
    alloc: Global,
    conn: Connection<S>,
) -> Result<Opened<S>, (KeepFault, S)>
    requires first { HasCleanDisk (state S.Store conn)
        → IsTrue (state S.Store conn).is_open × IsFirstHouse (state S.Store conn).now }
    requires rests { HasCleanDisk (state S.Store conn)
        → (state S.Store conn).now ≡ (state S.Store conn).committed }
    requires unlimited { conn.step_limit ≡ None }
    ensures opened { IfOk result (IsOpenedHouse S.Store) }
    ensures upgraded { IfOk result (λ o. HasCleanDisk (state S.Store o.conn)
        → Upgrades (state S.Store conn).now.trees (state S.Store o.conn).now) }
    ensures clean { IfOk result (λ o. HasCleanDisk (state S.Store o.conn)
        → HasCleanDisk (state S.Store conn)) }
    ensures left { IfErr result (λ e. e.0 ≢ Store → Follows S.Store conn e.1) }
    ensures grown { IfErr result (λ e. FollowsOrGrows S.Store conn e.1) }
    ensures damaged { IfErr result (λ e. e.0 ≡ Damaged → IsClean (S.Store.view e.1)
        → ¬ (IsSoundFirst (state S.Store conn).now)) }
{
    let mut conn = conn;
    match upgrade_read(alloc, &mut conn) {
        Ok((editions, clock, counts, reserves)) => Ok(Opened {
            conn,
            editions,
            reserves,
            counts,
            clock,
        }),
        Err(fault) => {
            let store = conn.into_store();
            if store.is_broken() {
                Err((KeepFault::Store, store))
            } else {
                Err((fault, store))
            }
        }
    }
}

/// Opens the house that a connection holds, in whatever order its trees lie, and upgrades it if it is
/// of version 1, which is reported. What the connection has not committed is undone. A house of
/// version 2 is not changed.
///
/// `Damaged` where the names find no house of version 1 or 2 that an opening would take. After an
/// error the store is given back, which shows in some order what it held; after `Store` it may hold
/// the house upgraded.
pub fn upgrade_house<S: Alter + Drop>(
    alloc: Global,
    conn: Connection<S>,
) -> Result<(Opened<Renumbered<S>>, bool), (KeepFault, Renumbered<S>)>
    ensures opened { IfOk result (λ r. IsOpenedHouse (over_numbers S.Store) r.0) }
    ensures upgraded { IfOk result (λ r. HasCleanDisk (state (over_numbers S.Store) r.0.conn)
        → r.1 ≡ true
        → UpgradesHeld (state S.Store conn).committed.trees
        (state (over_numbers S.Store) r.0.conn).now) }
    ensures kept { IfOk result (λ r. HasCleanDisk (state (over_numbers S.Store) r.0.conn)
        → r.1 ≡ false
        → IsArranged (state S.Store conn).committed.trees
        (state (over_numbers S.Store) r.0.conn).now.trees) }
    ensures follows { IfOk result (λ r. r.1 ≡ false
        → FollowsInOrder S.Store conn r.0.conn.store) }
    ensures clean { IfOk result (λ r. HasCleanDisk (state (over_numbers S.Store) r.0.conn)
        → HasCleanDisk (state S.Store conn)) }
    ensures left { IfErr result (λ e. e.0 ≢ Store → FollowsInOrder S.Store conn e.1) }
    ensures grown { IfErr result (λ e. FollowsOrGrowsInOrder S.Store conn e.1) }
    ensures damaged { IfErr result (λ e. e.0 ≡ Damaged → IsClean (S.Store.view e.1.inner)
        → (¬ (HoldsSound (state S.Store conn).committed.trees))
        × (¬ (HoldsSoundFirst (state S.Store conn).committed.trees))) }
{
    let (whole, is_first) = either_by_names(alloc, conn)?;
    if is_first {
        Ok((upgrade_first(alloc, whole)?, true))
    } else {
        Ok((opened_house(alloc, whole)?, false))
    }
}
