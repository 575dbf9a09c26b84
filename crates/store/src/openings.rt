//! How a keep begins: over a house that was opened.
ghost use Rattle.std.specs.Prelude.{◌≡◌, false};
ghost use Rattle.store_open.specs.Opened.{IsOpenedHouse};

use crate::keep::SqlKeep;
use sqlite::Alter;
use std::alloc::Global;
use store_open::Opened;
use store_rows::Rules;

// The version of the tables.
const VERSION: u32 = 2;

impl<S: Alter + Drop> SqlKeep<S> {
    /// The keep of a house that was opened.
    pub fn of_house(alloc: Global, house: Opened<S>) -> SqlKeep<S>
        requires { IsOpenedHouse S.Store house }
        ensures conn { result.conn ≡ house.conn }
        ensures works { result.failed ≡ false }
    {
        SqlKeep {
            alloc,
            conn: house.conn,
            rules: Rules {
                editions: house.editions,
                reserves: house.reserves,
            },
            counts: house.counts,
            clock: house.clock,
            failed: false,
            seen: None,
        }
    }
}

impl<S: Alter> SqlKeep<S> {
    /// The version of the tables, always 2.
    pub fn version(&self) -> u32
        ensures { result ≡ 2 }
    {
        VERSION
    }
}
