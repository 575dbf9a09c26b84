//! The statements on the table of categories.
ghost use Rattle.std.specs.Prelude.{◌≡◌, ◌==◌, find, IfOk, OnOk, IfSome, IsErrOf};
ghost use Rattle.std.specs.List.{AllByRecursion};
ghost use Rattle.sqlite.specs.State.{HasCleanDisk};
ghost use Rattle.sqlite.specs.Held.{state};
ghost use Rattle.house_rows.specs.Fits.{CategoryFits};
ghost use Rattle.house_rows.specs.Text.{same_text};
ghost use Rattle.house_rows.specs.declared.fault.KeepFault.TheVariants.{Damaged};
ghost use Rattle.store_rows.specs.House.{IsBegun, Serves, AddsCategory};
ghost use Rattle.store_rows.specs.Rows.{categories_in};
ghost use Rattle.store_rows.specs.Frames.{Finds, WritesOnce};

use crate::found::{row_found, rows_found};
use house_rows::{Category, KeepFault};
use sqlite::{Alter, Connection, Transaction, params};
use std::alloc::Global;
use store_rows::run;

/// Adds a category within a transaction.
pub(crate) fn put_category<S: Alter>(
    tx: &mut Transaction<'_, S>,
    number: u32,
    name: &str,
) -> Result<(), KeepFault>
    requires { IsBegun (state S.Store tx.old.conn.now) }
    ensures same_reference { tx.new.conn.ghost_name ≡ tx.old.conn.ghost_name }
    ensures ok { HasCleanDisk (state S.Store tx.new.conn.now)
        → OnOk result (AddsCategory number name.now (state S.Store tx.old.conn.now).now
        (state S.Store tx.new.conn.now).now) }
    ensures sound { ¬ (IsErrOf result Damaged) }
    ensures write { WritesOnce (state S.Store tx.old.conn.now)
        (state S.Store tx.new.conn.now) result }
{
    run(
        tx,
        "INSERT INTO category (id, name) VALUES (?1, ?2)",
        params![number, name],
    )
}

/// The category with a number.
pub fn category_at<S: Alter>(
    conn: &mut Connection<S>,
    number: u32,
) -> Result<Option<Category>, KeepFault>
    requires { Serves (state S.Store conn.old) }
    ensures finds { Finds S.Store conn.old conn.new result
        (λ db found. found ≡ find (λ m. m.category == number) (categories_in db))
        (λ db. IfSome (find (λ m. m.category == number) (categories_in db)) CategoryFits) }
    ensures fits { IfOk result (λ found. IfSome found CategoryFits) }
{
    row_found(
        conn,
        "SELECT id, name FROM category WHERE id = ?1 ORDER BY id",
        params![number],
    )
}

/// The category with a name.
pub fn category_named<S: Alter>(
    conn: &mut Connection<S>,
    name: &str,
) -> Result<Option<Category>, KeepFault>
    requires { Serves (state S.Store conn.old) }
    ensures finds { Finds S.Store conn.old conn.new result
        (λ db found. found ≡ find (λ m. same_text m.name name.now) (categories_in db))
        (λ db. IfSome (find (λ m. same_text m.name name.now) (categories_in db)) CategoryFits) }
    ensures fits { IfOk result (λ found. IfSome found CategoryFits) }
{
    row_found(
        conn,
        "SELECT id, name FROM category WHERE name = ?1 ORDER BY id",
        params![name],
    )
}

/// All categories, by number.
pub fn all_categories<S: Alter>(
    alloc: Global,
    conn: &mut Connection<S>,
) -> Result<Vec<Category>, KeepFault>
    requires { Serves (state S.Store conn.old) }
    ensures finds { Finds S.Store conn.old conn.new result
        (λ db all. all.items ≡ categories_in db) (λ db. AllByRecursion CategoryFits (categories_in db)) }
    ensures fits { IfOk result (λ all. AllByRecursion CategoryFits all.items) }
{
    rows_found(
        alloc,
        conn,
        "SELECT id, name FROM category ORDER BY id",
        &[],
    )
}
