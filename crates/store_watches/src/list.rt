//! The numbers of the items that a member watches.
ghost use Rattle.sqlite.specs.Held.{state};
ghost use Rattle.store_rows.specs.House.{Serves};
ghost use Rattle.store_rows.specs.Frames.{Finds};
ghost use Rattle.store_watches.specs.Watched.{AreWatched, WatchesFit};

use house_rows::KeepFault;
use sqlite::{Alter, Connection, params};
use std::alloc::Global;
use store_rows::{all_of, rows_shown};

/// The numbers of the items that a member watches, each once.
pub(crate) fn watched_by<S: Alter>(
    alloc: Global,
    conn: &mut Connection<S>,
    member: u32,
) -> Result<Vec<u32>, KeepFault>
    requires { Serves (state S.Store conn.old) }
    ensures { Finds S.Store conn.old conn.new result
        (λ db items. AreWatched member db items.items) (WatchesFit member) }
{
    let rows = rows_shown(
        conn,
        "SELECT item FROM watch WHERE member = ?1 ORDER BY member, item",
        params![member],
    )?;
    all_of(alloc, &rows)
}
