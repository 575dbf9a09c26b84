//! The statements on the table of members.
ghost use Rattle.std.specs.Prelude.{◌≡◌, ◌==◌, find, IfOk, OnOk, IfSome, IsErrOf};
ghost use Rattle.std.specs.List.{AllByRecursion};
ghost use Rattle.sqlite.specs.State.{HasCleanDisk};
ghost use Rattle.sqlite.specs.Held.{state};
ghost use Rattle.house_rows.specs.Fits.{MemberFits};
ghost use Rattle.house_rows.specs.Text.{same_text};
ghost use Rattle.house_rows.specs.declared.fault.KeepFault.TheVariants.{Damaged};
ghost use Rattle.store_rows.specs.House.{IsBegun, Serves, AddsMember};
ghost use Rattle.store_rows.specs.Rows.{members_in};
ghost use Rattle.store_rows.specs.Frames.{Finds, WritesOnce};

use crate::found::{row_found, rows_found};
use house_rows::{KeepFault, Member};
use sqlite::{Alter, Connection, Transaction, params};
use std::alloc::Global;
use store_rows::run;

/// Adds a member within a transaction.
pub(crate) fn put_member<S: Alter>(
    tx: &mut Transaction<'_, S>,
    number: u32,
    name: &str,
) -> Result<(), KeepFault>
    requires { IsBegun (state S.Store tx.old.conn.now) }
    ensures same_reference { tx.new.conn.ghost_name ≡ tx.old.conn.ghost_name }
    ensures ok { HasCleanDisk (state S.Store tx.new.conn.now)
        → OnOk result (AddsMember number name.now (state S.Store tx.old.conn.now).now
        (state S.Store tx.new.conn.now).now) }
    ensures sound { ¬ (IsErrOf result Damaged) }
    ensures write { WritesOnce (state S.Store tx.old.conn.now)
        (state S.Store tx.new.conn.now) result }
{
    run(
        tx,
        "INSERT INTO member (id, name) VALUES (?1, ?2)",
        params![number, name],
    )
}

/// The member with a number.
pub fn member_at<S: Alter>(
    conn: &mut Connection<S>,
    number: u32,
) -> Result<Option<Member>, KeepFault>
    requires { Serves (state S.Store conn.old) }
    ensures finds { Finds S.Store conn.old conn.new result
        (λ db found. found ≡ find (λ m. m.member == number) (members_in db))
        (λ db. IfSome (find (λ m. m.member == number) (members_in db)) MemberFits) }
    ensures fits { IfOk result (λ found. IfSome found MemberFits) }
{
    row_found(
        conn,
        "SELECT id, name FROM member WHERE id = ?1 ORDER BY id",
        params![number],
    )
}

/// The member with a name.
pub fn member_named<S: Alter>(
    conn: &mut Connection<S>,
    name: &str,
) -> Result<Option<Member>, KeepFault>
    requires { Serves (state S.Store conn.old) }
    ensures finds { Finds S.Store conn.old conn.new result
        (λ db found. found ≡ find (λ m. same_text m.name name.now) (members_in db))
        (λ db. IfSome (find (λ m. same_text m.name name.now) (members_in db)) MemberFits) }
    ensures fits { IfOk result (λ found. IfSome found MemberFits) }
{
    row_found(
        conn,
        "SELECT id, name FROM member WHERE name = ?1 ORDER BY id",
        params![name],
    )
}

/// All members, by number.
pub fn all_members<S: Alter>(
    alloc: Global,
    conn: &mut Connection<S>,
) -> Result<Vec<Member>, KeepFault>
    requires { Serves (state S.Store conn.old) }
    ensures finds { Finds S.Store conn.old conn.new result
        (λ db all. all.items ≡ members_in db) (λ db. AllByRecursion MemberFits (members_in db)) }
    ensures fits { IfOk result (λ all. AllByRecursion MemberFits all.items) }
{
    rows_found(alloc, conn, "SELECT id, name FROM member ORDER BY id", &[])
}
