//! The schemas of a house, made in memory to compare with.
ghost use Rattle.std.specs.Prelude.{◌≡◌, ◌≢◌, ◌≤◌, ◌↔◌, true, false, IfOk, OnOk, IsErrOf, IsTrue};
ghost use Rattle.sqlite.specs.Held.{state};
ghost use Rattle.sqlite.specs.State.{HasCleanDisk};
ghost use Rattle.sqlite.specs.Steps.{over_memory};
ghost use Rattle.house_rows.specs.declared.fault.KeepFault.TheVariants.{Damaged};
ghost use Rattle.store_rows.specs.Making.{IsBlank, made_by};
ghost use Rattle.store_rows.specs.Schema.{first_schema};
ghost use Rattle.store_house.specs.Plain.{IsPlainSchema};
ghost use Rattle.store_rows.specs.House.{IsHouseSchema};

use crate::same::is_same_schema;
use house_rows::KeepFault;
use sqlite::{Alter, Connection};
use sqlite_schema::schema::Schema;
use sqlite_trees::memory::MemStore;
use std::alloc::Global;
use store_rows::{FIRST_STEPS, OLDER_STEPS, STEPS, fault_of, make_steps};

// Makes the tables of a house by so many steps where nothing is listed, and commits them.
fn make_schema<S: Alter>(conn: &mut Connection<S>, steps: usize) -> Result<(), KeepFault>
    requires steps { steps ≤ 20 }
    requires blank { IsBlank (state S.Store conn.old) }
    requires mode { conn.old.in_transaction ≡ false }
    ensures ok { HasCleanDisk (state S.Store conn.new)
        → OnOk result ((state S.Store conn.new).now.schema ≡ made_by steps) }
    ensures sound { ¬ (IsErrOf result Damaged) }
{
    let mut tx = conn.transaction();
    make_steps(&mut tx, steps)?;
    match tx.commit() {
        Ok(()) => Ok(()),
        Err(error) => Err(fault_of(error)),
    }
}

// An empty house in memory, made by so many steps: its schema is the one to compare with.
fn house_in_memory(alloc: Global, steps: usize) -> Result<Connection<MemStore>, KeepFault>
    requires { steps ≤ 20 }
    ensures schema { IfOk result (λ c. (state over_memory c).now.schema ≡ made_by steps) }
    ensures sound { ¬ (IsErrOf result Damaged) }
{
    let Ok(mut conn) = Connection::open_in_memory(alloc) else {
        return Err(KeepFault::Memory);
    };
    make_schema(&mut conn, steps)?;
    Ok(conn)
}

// Whether a schema is that of a house made by so many steps. Memory is the only fault.
pub(crate) fn is_made_by(alloc: Global, schema: &Schema, steps: usize) -> Result<bool, KeepFault>
    requires steps { steps ≤ 20 }
    requires plain { IsPlainSchema (made_by steps) }
    ensures value { IfOk result (λ is. IsTrue is ↔ (schema.now ≡ made_by steps)) }
    ensures sound { ¬ (IsErrOf result Damaged) }
{
    let house = house_in_memory(alloc, steps)?;
    Ok(is_same_schema(schema, house.schema()))
}

// Whether a schema is that of a house of this version, with the index of watches by item or without it.
// Memory is the only fault.
pub(crate) fn is_house_schema(alloc: Global, schema: &Schema) -> Result<bool, KeepFault>
    ensures value { IfOk result (λ is. IsTrue is ↔ IsHouseSchema schema.now) }
    ensures sound { ¬ (IsErrOf result Damaged) }
{
    if is_made_by(alloc, schema, STEPS)? {
        Ok(true)
    } else {
        is_made_by(alloc, schema, OLDER_STEPS)
    }
}

// Whether a schema is that of a house of version 1, or of this version; Damaged where it is neither.
pub(crate) fn is_first_schema(alloc: Global, schema: &Schema) -> Result<bool, KeepFault>
    ensures value { IfOk result (λ is. (is ≡ true → schema.now ≡ first_schema)
        × (is ≡ false → IsHouseSchema schema.now)) }
    ensures damaged { IsErrOf result Damaged
        → (schema.now ≢ first_schema) × ¬ (IsHouseSchema schema.now) }
{
    if is_house_schema(alloc, schema)? {
        Ok(false)
    } else if is_made_by(alloc, schema, FIRST_STEPS)? {
        Ok(true)
    } else {
        Err(KeepFault::Damaged)
    }
}
