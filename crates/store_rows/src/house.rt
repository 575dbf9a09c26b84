//! The table of the house itself, whose row 1 is the house's. A new house has no other row, and no
//! change writes one: `other_houses` of `Changes`.
ghost use Rattle.std.specs.Prelude.{◌≡◌, ◌==◌, ◌<◌, ◌^◌, find, option_map, IfOk, OnOk, IsErrOf, IfSome};
ghost use Rattle.sqlite.specs.State.{HasCleanDisk, Survives};
ghost use Rattle.sqlite.specs.Held.{state};
ghost use Rattle.house_rows.specs.declared.fault.KeepFault.TheVariants.{Damaged, Store};
ghost use Rattle.store_rows.specs.Fitting.{HouseRowFits};
ghost use Rattle.store_rows.specs.House.{IsBegun, IsInside, Serves, SetsClock, SetsVersion};
ghost use Rattle.store_rows.specs.Rows.{house_of, houses_in};
ghost use Rattle.store_rows.specs.Frames.{WritesOnce, OnlyReads};

use crate::begun::run_begun;
use crate::columns::{number_at, text_at};
use crate::fits::{VERSION, house_fits};
use crate::sql::{rows_shown, run};
use crate::stored::{Stored, first_of};
use house_rows::{KeepFault, Text};
use sqlite::{Alter, Connection, Row, Transaction, params};

// The number of the row of the house.
const ONLY_ROW: u32 = 1;

/// What the house keeps once.
#[derive(Drop)]
pub struct HouseRow {
    /// Always 1.
    pub id: u32,
    /// The version of the tables.
    pub version: u32,
    /// The clock, in seconds since 1970-01-01T00:00:00Z.
    pub clock: u64,
    /// The rate of the fee, in ten-thousandths.
    pub rate: u64,
    /// The rule of the zone by which days are counted.
    pub zone: Text,
}

// The columns as they are.
fn report_house(row: &Row) -> Result<HouseRow, KeepFault>
    ensures value { IfOk result (λ h. h ≡ house_of row.now) }
    ensures damaged { HouseRowFits (house_of row.now) → ¬ (IsErrOf result Damaged) }
    ensures working { ¬ (IsErrOf result Store) }
{
    let id = number_at(row, 0)?;
    let version = number_at(row, 1)?;
    let clock = number_at(row, 2)?;
    let rate = number_at(row, 3)?;
    let zone = text_at(row, 4)?;
    Ok(HouseRow {
        id,
        version,
        clock: u64::from(clock),
        rate: u64::from(rate),
        zone,
    })
}

impl Stored for HouseRow {
    ghost report = { house_of };

    ghost fits = { HouseRowFits };

    fn read(row: &Row) -> Result<HouseRow, KeepFault> {
        let report = report_house(row)?;
        if house_fits(&report) {
            Ok(report)
        } else {
            Err(KeepFault::Damaged)
        }
    }
}

/// The row of the house.
pub fn house_row<S: Alter>(conn: &mut Connection<S>) -> Result<Option<HouseRow>, KeepFault>
    requires { Serves (state S.Store conn.old) }
    ensures found { HasCleanDisk (state S.Store conn.new)
        → IfOk result (λ found. found ≡ find (λ h. h.id == 1)
        (houses_in (state S.Store conn.old).now.trees)) }
    ensures fits { IfOk result (λ found. IfSome found HouseRowFits) }
    ensures damaged { HasCleanDisk (state S.Store conn.new)
        → IfSome (find (λ h. h.id == 1) (houses_in (state S.Store conn.old).now.trees)) HouseRowFits
        → ¬ (IsErrOf result Damaged) }
    ensures read { OnlyReads (state S.Store conn.old) (state S.Store conn.new) result }
{
    let rows = rows_shown(
        conn,
        "SELECT id, version, clock, rate, zone FROM house WHERE id = ?1 ORDER BY id",
        params![ONLY_ROW],
    )?;
    first_of(&rows)
}

/// Sets the clock within a transaction, in seconds since 1970-01-01T00:00:00Z.
pub fn set_clock<S: Alter>(tx: &mut Transaction<'_, S>, moment: u32) -> Result<(), KeepFault>
    requires { IsBegun (state S.Store tx.old.conn.now) }
    ensures same_reference { tx.new.conn.ghost_name ≡ tx.old.conn.ghost_name }
    ensures ok { HasCleanDisk (state S.Store tx.new.conn.now)
        → OnOk result (SetsClock moment (state S.Store tx.old.conn.now).now
        (state S.Store tx.new.conn.now).now) }
    ensures sound { ¬ (IsErrOf result Damaged) }
    ensures write { WritesOnce (state S.Store tx.old.conn.now)
        (state S.Store tx.new.conn.now) result }
{
    run(
        tx,
        "UPDATE house SET clock = ?2 WHERE id = ?1",
        params![ONLY_ROW, moment],
    )
}

/// The version of the tables, as the row of the house gives it.
pub fn stored_version<S: Alter>(conn: &mut Connection<S>) -> Result<Option<u32>, KeepFault>
    requires { Serves (state S.Store conn.old) }
    ensures found { HasCleanDisk (state S.Store conn.new)
        → IfOk result (λ found. found ≡ option_map (λ h. h.version) (find (λ h. h.id == 1)
        (houses_in (state S.Store conn.old).now.trees))) }
    ensures damaged { HasCleanDisk (state S.Store conn.new)
        → IfSome (option_map (λ h. h.version) (find (λ h. h.id == 1)
        (houses_in (state S.Store conn.old).now.trees))) (λ n. n < 2 ^ 32)
        → ¬ (IsErrOf result Damaged) }
    ensures read { OnlyReads (state S.Store conn.old) (state S.Store conn.new) result }
{
    let rows = rows_shown(
        conn,
        "SELECT version FROM house WHERE id = ?1 ORDER BY id",
        params![ONLY_ROW],
    )?;
    first_of(&rows)
}

/// Sets the version of the tables within a transaction that was begun.
pub fn set_version<S: Alter>(conn: &mut Connection<S>) -> Result<(), KeepFault>
    requires { IsBegun (state S.Store conn.old) }
    ensures ok { HasCleanDisk (state S.Store conn.new)
        → OnOk result (SetsVersion 2 (state S.Store conn.old).now (state S.Store conn.new).now) }
    ensures inside { HasCleanDisk (state S.Store conn.new)
        → OnOk result (IsInside (state S.Store conn.old) (state S.Store conn.new)) }
    ensures sound { ¬ (IsErrOf result Damaged) }
    ensures crash { Survives (state S.Store conn.old) (state S.Store conn.new) (λ _. ⊥) }
{
    run_begun(
        conn,
        "UPDATE house SET version = ?2 WHERE id = ?1",
        params![ONLY_ROW, VERSION],
    )
}
