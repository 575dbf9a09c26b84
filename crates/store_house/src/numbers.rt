//! How many members, categories and items there are, whose numbers run no higher.
ghost use Rattle.std.specs.Prelude.{◌≡◌, ◌<◌, ◌^◌, ℕ, ⊤, List, [], length, min};
ghost use Rattle.std.specs.Prelude.{IfOk, OnOk, IsErrOf};
ghost use Rattle.sqlite_value.specs.Order.{Row};
ghost use Rattle.sqlite.specs.Held.{state};
ghost use Rattle.sqlite.specs.State.{HasCleanDisk, Shown};
ghost use Rattle.sqlite.specs.Values.{bound};
ghost use Rattle.house_rows.specs.declared.fault.KeepFault.TheVariants.{Damaged};
ghost use Rattle.store_rows.specs.House.{IsHouse, Serves};
ghost use Rattle.store_rows.specs.Counts.{most_counted};
ghost use Rattle.store_house.specs.Numbers.{AreWithin, CountsRows, IsTableTree, ShowsNumbers};
ghost use Rattle.store_house.specs.Numbers.{is_above, is_below, row_number};
ghost use Rattle.store_house.specs.Opening.{AreNumbered, HaveNumbers, IsCount};
ghost use Rattle.store_rows.specs.Frames.{Finds, OnlyReads};
ghost use Rattle.store_rows.specs.Statements.{AlwaysPlain};

use house_rows::{Counts, KeepFault};
use sqlite::types::ValueRef;
use sqlite::{Alter, Connection, params};
use store_rows::{read_count, rows_shown};

// Damaged where a query shows a row.
fn shows_none<S: Alter>(
    conn: &mut Connection<S>,
    sql: &str,
    params: &[ValueRef<'_>],
) -> Result<(), KeepFault>
    requires serves { Serves (state S.Store conn.old) }
    requires plain { AlwaysPlain sql.now }
    ensures house { HasCleanDisk (state S.Store conn.new) → IsHouse (state S.Store conn.old).now }
    ensures none { HasCleanDisk (state S.Store conn.new)
        → OnOk result (Shown sql.now (bound params.now) (state S.Store conn.old)
        (state S.Store conn.new) []) }
    ensures damaged { HasCleanDisk (state S.Store conn.new)
        → ((rows : List Row) → Shown sql.now (bound params.now) (state S.Store conn.old)
        (state S.Store conn.new) rows → rows ≡ [])
        → ¬ (IsErrOf result Damaged) }
    ensures read { OnlyReads (state S.Store conn.old) (state S.Store conn.new) result }
{
    let rows = rows_shown(conn, sql, params)?;
    if rows.is_empty() {
        Ok(())
    } else {
        Err(KeepFault::Damaged)
    }
}

// A count as a number of 32 bits.
fn small(count: u64) -> Result<u32, KeepFault>
    ensures value { IfOk result (λ n. n ≡ count) }
    ensures damaged { count < 2 ^ 32 → ¬ (IsErrOf result Damaged) }
{
    match u32::try_from(count) {
        Ok(count) => Ok(count),
        Err(_) => Err(KeepFault::Damaged),
    }
}

// How many rows a table has.
fn count_rows<S: Alter>(conn: &mut Connection<S>, sql: &str) -> Result<u64, KeepFault>
    requires serves { Serves (state S.Store conn.old) }
    requires plain { AlwaysPlain sql.now }
    ensures finds { (tree : ℕ) → IsTableTree tree → CountsRows sql.now tree
        → Finds S.Store conn.old conn.new result
        (λ db n. n ≡ min (length (db tree)) most_counted) (λ _. ⊤) }
    ensures read { OnlyReads (state S.Store conn.old) (state S.Store conn.new) result }
{
    let rows = rows_shown(conn, sql, &[])?;
    read_count(&rows)
}

// Damaged where a table has a number that is not from 1 to this one.
fn check_numbers<S: Alter>(
    conn: &mut Connection<S>,
    below: &str,
    above: &str,
    most: u32,
) -> Result<(), KeepFault>
    requires serves { Serves (state S.Store conn.old) }
    requires plain { AlwaysPlain below.now
        × AlwaysPlain above.now }
    ensures finds { (tree : ℕ) → IsTableTree tree → ShowsNumbers below.now tree is_below
        → ShowsNumbers above.now tree is_above → Finds S.Store conn.old conn.new result
        (λ db _. AreWithin most (db tree)) (λ db. AreWithin most (db tree)) }
    ensures read { OnlyReads (state S.Store conn.old) (state S.Store conn.new) result }
{
    shows_none(conn, below, &[])?;
    shows_none(conn, above, params![most])
}

// How many rows a table has; Damaged where one has a number that is 0 or over that.
fn count_numbered<S: Alter>(
    conn: &mut Connection<S>,
    count: &str,
    below: &str,
    above: &str,
) -> Result<u32, KeepFault>
    requires serves { Serves (state S.Store conn.old) }
    requires plain { AlwaysPlain count.now
        × AlwaysPlain below.now × AlwaysPlain above.now }
    ensures finds { (tree : ℕ) → IsTableTree tree → CountsRows count.now tree
        → ShowsNumbers below.now tree is_below → ShowsNumbers above.now tree is_above
        → Finds S.Store conn.old conn.new result (λ db n. IsCount n row_number (db tree))
        (λ db. IsCount (length (db tree)) row_number (db tree)) }
    ensures read { OnlyReads (state S.Store conn.old) (state S.Store conn.new) result }
{
    let most = small(count_rows(conn, count)?)?;
    check_numbers(conn, below, above, most)?;
    Ok(most)
}

/// How many of each there are. `Damaged` where a number is 0 or over the count of its table.
pub fn read_counts<S: Alter>(conn: &mut Connection<S>) -> Result<Counts, KeepFault>
    requires { Serves (state S.Store conn.old) }
    ensures { Finds S.Store conn.old conn.new result HaveNumbers AreNumbered }
{
    let members = count_numbered(
        conn,
        "SELECT count(*) FROM member",
        "SELECT id FROM member WHERE id < 1 ORDER BY id",
        "SELECT id FROM member WHERE id > ?1 ORDER BY id",
    )?;
    let categories = count_numbered(
        conn,
        "SELECT count(*) FROM category",
        "SELECT id FROM category WHERE id < 1 ORDER BY id",
        "SELECT id FROM category WHERE id > ?1 ORDER BY id",
    )?;
    let items = count_numbered(
        conn,
        "SELECT count(*) FROM item",
        "SELECT id FROM item WHERE id < 1 ORDER BY id",
        "SELECT id FROM item WHERE id > ?1 ORDER BY id",
    )?;
    Ok(Counts {
        members,
        categories,
        items,
    })
}
