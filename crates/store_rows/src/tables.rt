//! The statements that make the tables and their indexes, in an empty database or over version 1.
ghost use Rattle.std.specs.Prelude.{◌≡◌, ◌<◌, ◌≤◌, ◌+◌, OnOk, IsErrOf, IsTrue};
ghost use Rattle.sqlite.specs.State.{HasCleanDisk, Survives};
ghost use Rattle.sqlite.specs.Held.{state};
ghost use Rattle.house_rows.specs.declared.fault.KeepFault.TheVariants.{Damaged};
ghost use Rattle.sqlite_trees.specs.Tree.{Trees};
ghost use Rattle.store_rows.specs.House.{AddsTables, IsFirstHouse, IsInside};
ghost use Rattle.store_rows.specs.Making.{IsBlank, IsGrown, IsMade, making_at};
ghost use Rattle.store_rows.specs.Frames.{WritesOnce, WritesMany};

use crate::begun::run_begun;
use crate::sql::fault_of;
use house_rows::KeepFault;
use sqlite::{Alter, Connection, Transaction};

/// How many statements make the tables of version 1.
pub const FIRST_STEPS: usize = 16;

/// How many statements made the tables and indexes before watches had an index by item.
pub const OLDER_STEPS: usize = 19;

/// How many statements make the tables and indexes.
pub const STEPS: usize = 20;

// The schema, a statement a step. Definitions take the texts from here.
const HOUSE: &str = "CREATE TABLE house (id INTEGER PRIMARY KEY, version INTEGER NOT NULL, \
    clock INTEGER NOT NULL, rate INTEGER NOT NULL, zone TEXT NOT NULL) STRICT";

const BAND: &str = "CREATE TABLE band (at INTEGER PRIMARY KEY, step INTEGER NOT NULL) STRICT";

const MEMBER: &str =
    "CREATE TABLE member (id INTEGER PRIMARY KEY, name TEXT NOT NULL, UNIQUE (name)) STRICT";

const CATEGORY: &str =
    "CREATE TABLE category (id INTEGER PRIMARY KEY, name TEXT NOT NULL, UNIQUE (name)) STRICT";

const ITEM: &str =
    "CREATE TABLE item (id INTEGER PRIMARY KEY, seller INTEGER NOT NULL REFERENCES member (id), \
    category INTEGER NOT NULL REFERENCES category (id), lot TEXT NOT NULL, title TEXT NOT NULL, \
    body TEXT NOT NULL, start INTEGER NOT NULL, buy_now INTEGER, ending INTEGER NOT NULL, \
    state INTEGER NOT NULL, closed INTEGER, price INTEGER NOT NULL, \
    leader INTEGER REFERENCES member (id), top INTEGER, second INTEGER, count INTEGER NOT NULL, \
    UNIQUE (seller, lot)) STRICT";

const BID: &str =
    "CREATE TABLE bid (item INTEGER NOT NULL REFERENCES item (id), no INTEGER NOT NULL, \
    member INTEGER NOT NULL REFERENCES member (id), maximum INTEGER NOT NULL, \
    PRIMARY KEY (item, no)) STRICT";

const WATCH: &str = "CREATE TABLE watch (member INTEGER NOT NULL REFERENCES member (id), \
    item INTEGER NOT NULL REFERENCES item (id), PRIMARY KEY (member, item)) STRICT";

const QUESTION: &str = "CREATE TABLE question (item INTEGER NOT NULL REFERENCES item (id), \
    asker INTEGER NOT NULL REFERENCES member (id), n INTEGER NOT NULL, body TEXT NOT NULL, \
    answer TEXT, PRIMARY KEY (item, asker, n)) STRICT";

const FEEDBACK: &str = "CREATE TABLE feedback (item INTEGER NOT NULL REFERENCES item (id), \
    giver INTEGER NOT NULL REFERENCES member (id), \
    receiver INTEGER NOT NULL REFERENCES member (id), rating INTEGER NOT NULL, \
    body TEXT NOT NULL, PRIMARY KEY (item, giver)) STRICT";

const ITEM_BY_CATEGORY: &str = "CREATE INDEX item_by_category ON item (category, id)";

const ITEM_BY_SELLER: &str = "CREATE INDEX item_by_seller ON item (seller, id)";

const ITEM_BY_LEADER: &str = "CREATE INDEX item_by_leader ON item (leader, id)";

const ITEM_BY_END: &str = "CREATE INDEX item_by_end ON item (state, ending)";

const BID_BY_MEMBER: &str = "CREATE INDEX bid_by_member ON bid (member, item)";

const QUESTION_BY_ASKER: &str = "CREATE INDEX question_by_asker ON question (asker, item, n)";

const FEEDBACK_BY_RECEIVER: &str =
    "CREATE INDEX feedback_by_receiver ON feedback (receiver, item, giver)";

const RESERVE: &str = "CREATE TABLE reserve (item INTEGER PRIMARY KEY REFERENCES item (id), \
    amount INTEGER NOT NULL) STRICT";

const EDITION: &str =
    "CREATE TABLE edition (edition INTEGER PRIMARY KEY, first INTEGER NOT NULL) STRICT";

const LATER_BAND: &str =
    "CREATE TABLE later_band (edition INTEGER NOT NULL REFERENCES edition (edition), \
    at INTEGER NOT NULL, step INTEGER NOT NULL, PRIMARY KEY (edition, at)) STRICT";

// An update of an item looks for the rows that name it, so it would read all watches without this.
const WATCH_BY_ITEM: &str = "CREATE INDEX watch_by_item ON watch (item, member)";

/// The text of a step: the tables in the order of their references, their indexes, then the tables
/// that version 2 adds, and the index of watches by item.
pub fn step_text(step: usize) -> &'static str
    requires { step < STEPS }
    ensures { result.now ≡ making_at step }
{
    match step {
        0 => HOUSE,
        1 => BAND,
        2 => MEMBER,
        3 => CATEGORY,
        4 => ITEM,
        5 => BID,
        6 => WATCH,
        7 => QUESTION,
        8 => FEEDBACK,
        9 => ITEM_BY_CATEGORY,
        10 => ITEM_BY_SELLER,
        11 => ITEM_BY_LEADER,
        12 => ITEM_BY_END,
        13 => BID_BY_MEMBER,
        14 => QUESTION_BY_ASKER,
        15 => FEEDBACK_BY_RECEIVER,
        16 => RESERVE,
        17 => EDITION,
        18 => LATER_BAND,
        _ => WATCH_BY_ITEM,
    }
}

// Runs one step.
fn make_step<S: Alter>(tx: &mut Transaction<'_, S>, step: usize) -> Result<(), KeepFault>
    requires step { step < STEPS }
    requires before { HasCleanDisk (state S.Store tx.old.conn.now)
        → IsTrue (state S.Store tx.old.conn.now).is_open
        × IsMade step (state S.Store tx.old.conn.now).now }
    requires begun { HasCleanDisk (state S.Store tx.old.conn.now)
        → IsTrue tx.old.conn.now.in_transaction }
    ensures same_reference { tx.new.conn.ghost_name ≡ tx.old.conn.ghost_name }
    ensures ok { HasCleanDisk (state S.Store tx.new.conn.now)
        → OnOk result (IsMade (step + 1) (state S.Store tx.new.conn.now).now) }
    ensures sound { ¬ (IsErrOf result Damaged) }
    ensures write { WritesOnce (state S.Store tx.old.conn.now)
        (state S.Store tx.new.conn.now) result }
{
    match tx.execute(step_text(step), &[]) {
        Ok(_) => Ok(()),
        Err(error) => Err(fault_of(error)),
    }
}

/// Makes the first tables and indexes within a transaction, so many steps of them, in a database that
/// has none. After an error nothing is committed: the transaction is to be dropped.
#[tactic(auto, using(crate::proofs::MakeLemmas::blank_made))]
pub fn make_steps<S: Alter>(tx: &mut Transaction<'_, S>, steps: usize) -> Result<(), KeepFault>
    requires steps { steps ≤ STEPS }
    requires blank { IsBlank (state S.Store tx.old.conn.now) }
    requires begun { HasCleanDisk (state S.Store tx.old.conn.now)
        → IsTrue tx.old.conn.now.in_transaction }
    ensures same_reference { tx.new.conn.ghost_name ≡ tx.old.conn.ghost_name }
    ensures ok { HasCleanDisk (state S.Store tx.new.conn.now)
        → OnOk result (IsMade steps (state S.Store tx.new.conn.now).now) }
    ensures sound { ¬ (IsErrOf result Damaged) }
    ensures write { WritesMany (state S.Store tx.old.conn.now)
        (state S.Store tx.new.conn.now) result }
{
    for step in 0..steps {
        make_step(tx, step)?;
    }
    Ok(())
}

// Runs one step over the rows of a house of version 1, within a transaction that was begun.
fn add_step<S: Alter>(conn: &mut Connection<S>, step: usize) -> Result<(), KeepFault>
    requires later { 16 ≤ step }
    requires step { step < STEPS }
    requires begun { HasCleanDisk (state S.Store conn.old) → IsTrue conn.old.in_transaction }
    requires before { HasCleanDisk (state S.Store conn.old)
        → (first : Trees) × IsGrown step first (state S.Store conn.old).now }
    ensures ok { HasCleanDisk (state S.Store conn.new)
        → OnOk result ((first : Trees) → IsGrown step first (state S.Store conn.old).now
        → IsGrown (step + 1) first (state S.Store conn.new).now) }
    ensures inside { HasCleanDisk (state S.Store conn.new)
        → OnOk result (IsInside (state S.Store conn.old) (state S.Store conn.new)) }
    ensures sound { ¬ (IsErrOf result Damaged) }
    ensures crash { Survives (state S.Store conn.old) (state S.Store conn.new) (λ _. ⊥) }
{
    run_begun(conn, step_text(step), &[])
}

/// Adds the tables of version 2 and the index of watches by item to those of version 1, within a
/// transaction that was begun. After an error the connection is to be dropped.
#[tactic(auto, using(crate::proofs::MakeLemmas::none_grown, crate::proofs::MakeLemmas::all_grown))]
pub fn add_tables<S: Alter>(conn: &mut Connection<S>) -> Result<(), KeepFault>
    requires first { HasCleanDisk (state S.Store conn.old)
        → IsFirstHouse (state S.Store conn.old).now }
    requires begun { HasCleanDisk (state S.Store conn.old) → IsTrue conn.old.in_transaction }
    requires is_open { HasCleanDisk (state S.Store conn.old)
        → IsTrue (state S.Store conn.old).is_open }
    ensures ok { HasCleanDisk (state S.Store conn.new)
        → OnOk result (AddsTables (state S.Store conn.old).now (state S.Store conn.new).now) }
    ensures inside { HasCleanDisk (state S.Store conn.new)
        → OnOk result (IsInside (state S.Store conn.old) (state S.Store conn.new)) }
    ensures sound { ¬ (IsErrOf result Damaged) }
    ensures crash { Survives (state S.Store conn.old) (state S.Store conn.new) (λ _. ⊥) }
{
    for step in FIRST_STEPS..STEPS {
        add_step(conn, step)?;
    }
    Ok(())
}
