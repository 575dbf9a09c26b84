//! A house is made in an empty database, in the order in which SQLite leaves one.
ghost use Rattle.std.specs.Prelude.{◌≡◌, ◌≢◌, ◌↔◌, ◌⊎◌, [], true, false, OnOk, OnErr, IsErrOf, IsTrue};
ghost use Rattle.sqlite.specs.State.{HasCleanDisk, Survives};
ghost use Rattle.sqlite.specs.Held.{state};
ghost use Rattle.sqlite_trees.specs.Tree.{Trees};
ghost use Rattle.house_rows.specs.declared.fault.KeepFault.TheVariants.{Damaged};
ghost use Rattle.steps.specs.Table.{IsBandTable};
ghost use Rattle.store_making.specs.Made.{HasBands, IsMadeHouse, MadeHouse};
ghost use Rattle.store_rows.specs.Making.{IsBlank};
ghost use Rattle.store_rows.specs.Schema.{no_schema};
ghost use Rattle.store_rows.specs.Commits.{IsBack};
ghost use Rattle.store_rows.specs.Frames.{OnlyReads, WritesMany};

use crate::put::{put_band, put_house};
use crate::tables::make_tables;
use house_rows::{KeepFault, Settings};
use sqlite::{Alter, Connection, Transaction};
use sqlite_schema::schema::Schema;
use store_rows::fault_of;

// Writes the bands of a table where no table has a row.
fn put_bands<S: Alter>(tx: &mut Transaction<'_, S>, bands: &[(u64, u64)]) -> Result<(), KeepFault>
    requires valid { IsBandTable bands.now }
    requires empty { HasCleanDisk (state S.Store tx.old.conn.now)
        → IsTrue (state S.Store tx.old.conn.now).is_open
        × HasBands [] (state S.Store tx.old.conn.now).now }
    requires begun { HasCleanDisk (state S.Store tx.old.conn.now)
        → IsTrue tx.old.conn.now.in_transaction }
    ensures same_reference { tx.new.conn.ghost_name ≡ tx.old.conn.ghost_name }
    ensures ok { HasCleanDisk (state S.Store tx.new.conn.now)
        → OnOk result (HasBands bands.now (state S.Store tx.new.conn.now).now) }
    ensures sound { ¬ (IsErrOf result Damaged) }
    ensures write { WritesMany (state S.Store tx.old.conn.now)
        (state S.Store tx.new.conn.now) result }
{
    for (from, step) in bands {
        put_band(tx, *from as u32, *step as u32)?;
    }
    Ok(())
}

// Writes what a house is set up with where no table has a row.
fn put_settings<S: Alter>(tx: &mut Transaction<'_, S>, settings: &Settings) -> Result<(), KeepFault>
    requires empty { HasCleanDisk (state S.Store tx.old.conn.now)
        → IsTrue (state S.Store tx.old.conn.now).is_open
        × HasBands [] (state S.Store tx.old.conn.now).now }
    requires begun { HasCleanDisk (state S.Store tx.old.conn.now)
        → IsTrue tx.old.conn.now.in_transaction }
    ensures same_reference { tx.new.conn.ghost_name ≡ tx.old.conn.ghost_name }
    ensures ok { HasCleanDisk (state S.Store tx.new.conn.now)
        → OnOk result (IsMadeHouse settings.now (state S.Store tx.new.conn.now).now) }
    ensures sound { ¬ (IsErrOf result Damaged) }
    ensures write { WritesMany (state S.Store tx.old.conn.now)
        (state S.Store tx.new.conn.now) result }
{
    put_bands(tx, settings.bands.rows())?;
    put_house(tx, settings.rate.value() as u32, &settings.zone)
}

// Whether nothing is listed.
fn is_blank(schema: &Schema) -> bool
    ensures { IsTrue result ↔ (schema.now ≡ no_schema) }
{
    schema.tables.is_empty() && schema.indexes.is_empty() && schema.views.is_empty()
}

// Makes a house within a transaction, where nothing is listed.
fn start<S: Alter>(tx: &mut Transaction<'_, S>, settings: &Settings) -> Result<(), KeepFault>
    requires blank { IsBlank (state S.Store tx.old.conn.now) }
    requires begun { HasCleanDisk (state S.Store tx.old.conn.now)
        → IsTrue tx.old.conn.now.in_transaction }
    ensures same_reference { tx.new.conn.ghost_name ≡ tx.old.conn.ghost_name }
    ensures ok { HasCleanDisk (state S.Store tx.new.conn.now)
        → OnOk result (IsMadeHouse settings.now (state S.Store tx.new.conn.now).now) }
    ensures sound { ¬ (IsErrOf result Damaged) }
    ensures write { WritesMany (state S.Store tx.old.conn.now)
        (state S.Store tx.new.conn.now) result }
{
    make_tables(tx)?;
    put_settings(tx, settings)
}

// Makes a house where nothing is listed, and commits it.
fn fill<S: Alter>(conn: &mut Connection<S>, settings: &Settings) -> Result<(), KeepFault>
    requires blank { IsBlank (state S.Store conn.old) }
    requires mode { conn.old.in_transaction ≡ false }
    ensures ok { HasCleanDisk (state S.Store conn.new)
        → OnOk result (IsTrue (state S.Store conn.new).is_open
        × IsMadeHouse settings.now (state S.Store conn.new).now
        × ((state S.Store conn.new).now ≡ (state S.Store conn.new).committed)) }
    ensures sound { ¬ (IsErrOf result Damaged) }
    ensures err { HasCleanDisk (state S.Store conn.new)
        → IsTrue (state S.Store conn.new).is_open
        → OnErr result (IsBack (state S.Store conn.old) (state S.Store conn.new)) }
    ensures mode { conn.new.in_transaction ≡ false }
    ensures crash { Survives (state S.Store conn.old) (state S.Store conn.new)
        (MadeHouse settings.now) }
{
    let mut tx = conn.transaction();
    start(&mut tx, settings)?;
    match tx.commit() {
        Ok(()) => Ok(()),
        Err(error) => Err(fault_of(error)),
    }
}

// Memory or Store where the connection serves no more.
fn serve_still<S: Alter>(conn: &mut Connection<S>) -> Result<(), KeepFault>
    ensures read { OnlyReads (state S.Store conn.old) (state S.Store conn.new) result }
    ensures sound { ¬ (IsErrOf result Damaged) }
{
    match conn.prepare("SELECT 1") {
        Ok(_) => Ok(()),
        Err(error) => Err(fault_of(error)),
    }
}

/// Makes a house in a database that lists nothing: its tables and then their indexes, its row and its
/// bands, in one transaction.
///
/// `Damaged` where a table, an index or a view is listed already, and where a transaction is open,
/// which goes on. After an error the database is as it was, or holds the new house where the disk
/// failed.
pub fn make_house<S: Alter>(conn: &mut Connection<S>, settings: &Settings) -> Result<(), KeepFault>
    ensures ok { HasCleanDisk (state S.Store conn.new)
        → OnOk result (IsTrue (state S.Store conn.new).is_open
        × IsMadeHouse settings.now (state S.Store conn.new).now
        × ((state S.Store conn.new).now ≡ (state S.Store conn.new).committed)) }
    ensures only { HasCleanDisk (state S.Store conn.new)
        → OnOk result ((db : Trees) → (state S.Store conn.new).may_leave db
        → db ≡ (state S.Store conn.new).now.trees) }
    ensures damaged { IsErrOf result Damaged ↔ ((conn.old.in_transaction ≡ true)
        ⊎ ((state S.Store conn.old).now.schema ≢ no_schema)) }
    ensures same { IsErrOf result Damaged → conn.new ≡ conn.old }
    ensures blank { OnOk result ((conn.old.in_transaction ≡ false)
        × ((state S.Store conn.old).now.schema ≡ no_schema)) }
    ensures err { HasCleanDisk (state S.Store conn.new)
        → IsTrue (state S.Store conn.new).is_open
        → conn.old.in_transaction ≡ false
        → OnErr result (IsBack (state S.Store conn.old) (state S.Store conn.new)) }
    ensures mode { conn.old.in_transaction ≡ false → conn.new.in_transaction ≡ false }
    ensures crash { Survives (state S.Store conn.old) (state S.Store conn.new)
        (MadeHouse settings.now) }
{
    if !conn.is_autocommit() || !is_blank(conn.schema()) {
        return Err(KeepFault::Damaged);
    }
    serve_still(conn)?;
    fill(conn, settings)
}
