//! Whether members and categories are there, by number.
ghost use Rattle.std.specs.Prelude.{◌≡◌, ◌==◌, true, false, find, is_some, IfOk, IfSome};
ghost use Rattle.sqlite.specs.Held.{state};
ghost use Rattle.house_rows.specs.Fits.{CategoryFits, IsMember, IsWithin, MemberFits};
ghost use Rattle.house_rows.specs.Limits.{most_categories};
ghost use Rattle.store_rows.specs.House.{Serves};
ghost use Rattle.store_rows.specs.Rows.{categories_in, members_in};
ghost use Rattle.store_rows.specs.Frames.{Finds};

use house_rows::{KeepFault, MOST_CATEGORIES, MOST_MEMBERS};
use sqlite::{Alter, Connection, params};
use store_rows::rows_shown;

/// Whether there is a member of a number.
pub fn has_member<S: Alter>(conn: &mut Connection<S>, member: u32) -> Result<bool, KeepFault>
    requires { Serves (state S.Store conn.old) }
    ensures finds { Finds S.Store conn.old conn.new result
        (λ db is. is ≡ is_some (find (λ row. row.member == member) (members_in db)))
        (λ db. IfSome (find (λ row. row.member == member) (members_in db)) MemberFits) }
    ensures fits { IfOk result (λ is. is ≡ true → IsMember member) }
{
    let rows = rows_shown(conn, "SELECT id FROM member WHERE id = ?1", params![member])?;
    if rows.is_empty() {
        Ok(false)
    } else if 1 <= member && member <= MOST_MEMBERS {
        Ok(true)
    } else {
        Err(KeepFault::Damaged)
    }
}

/// Whether there is a category of a number.
pub fn has_category<S: Alter>(conn: &mut Connection<S>, category: u32) -> Result<bool, KeepFault>
    requires { Serves (state S.Store conn.old) }
    ensures finds { Finds S.Store conn.old conn.new result
        (λ db is. is ≡ is_some (find (λ row. row.category == category) (categories_in db)))
        (λ db. IfSome (find (λ row. row.category == category) (categories_in db)) CategoryFits) }
    ensures fits { IfOk result (λ is. is ≡ true → IsWithin 1 most_categories category) }
{
    let rows = rows_shown(
        conn,
        "SELECT id FROM category WHERE id = ?1",
        params![category],
    )?;
    if rows.is_empty() {
        Ok(false)
    } else if 1 <= category && category <= MOST_CATEGORIES {
        Ok(true)
    } else {
        Err(KeepFault::Damaged)
    }
}
