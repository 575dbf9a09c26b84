//! The statements on the table of questions.
ghost use Rattle.std.specs.Prelude.{◌≡◌, None, find, IfOk, IfSome, OnOk, IsErrOf};
ghost use Rattle.sqlite.specs.State.{HasCleanDisk};
ghost use Rattle.sqlite.specs.Held.{state};
ghost use Rattle.house_rows.specs.Fits.{QuestionFits};
ghost use Rattle.house_rows.specs.declared.fault.KeepFault.TheVariants.{Damaged};
ghost use Rattle.house_rows.specs.Questions.{is_question};
ghost use Rattle.store_rows.specs.House.{IsBegun, Serves, AddsQuestion};
ghost use Rattle.store_talk.specs.Answers.{SetsAnswer};
ghost use Rattle.store_rows.specs.Rows.{questions_in};
ghost use Rattle.store_rows.specs.Frames.{Finds, WritesOnce};

use house_rows::{KeepFault, Question};
use sqlite::{Alter, Connection, Transaction, params};
use store_rows::{first_of, rows_shown, run};

/// Adds a question that waits within a transaction, `number` among this asker's on the item.
pub(crate) fn put_question<S: Alter>(
    tx: &mut Transaction<'_, S>,
    item: u32,
    asker: u32,
    number: u32,
    text: &str,
) -> Result<(), KeepFault>
    requires { IsBegun (state S.Store tx.old.conn.now) }
    ensures same_reference { tx.new.conn.ghost_name ≡ tx.old.conn.ghost_name }
    ensures ok { HasCleanDisk (state S.Store tx.new.conn.now)
        → OnOk result
        (AddsQuestion
        (record { item = item; asker = asker; number = number; text = text.now; answer = None })
        (state S.Store tx.old.conn.now).now (state S.Store tx.new.conn.now).now) }
    ensures sound { ¬ (IsErrOf result Damaged) }
    ensures write { WritesOnce (state S.Store tx.old.conn.now)
        (state S.Store tx.new.conn.now) result }
{
    run(
        tx,
        "INSERT INTO question (item, asker, n, body, answer) VALUES (?1, ?2, ?3, ?4, NULL)",
        params![item, asker, number, text],
    )
}

/// Answers the question of a key within a transaction.
pub(crate) fn set_answer<S: Alter>(
    tx: &mut Transaction<'_, S>,
    item: u32,
    asker: u32,
    number: u32,
    text: &str,
) -> Result<(), KeepFault>
    requires { IsBegun (state S.Store tx.old.conn.now) }
    ensures same_reference { tx.new.conn.ghost_name ≡ tx.old.conn.ghost_name }
    ensures ok { HasCleanDisk (state S.Store tx.new.conn.now)
        → OnOk result (SetsAnswer item asker number text.now (state S.Store tx.old.conn.now).now
        (state S.Store tx.new.conn.now).now) }
    ensures sound { ¬ (IsErrOf result Damaged) }
    ensures write { WritesOnce (state S.Store tx.old.conn.now)
        (state S.Store tx.new.conn.now) result }
{
    run(
        tx,
        "UPDATE question SET answer = ?4 WHERE item = ?1 AND asker = ?2 AND n = ?3",
        params![item, asker, number, text],
    )
}

/// The question of a key.
pub fn question_at<S: Alter>(
    conn: &mut Connection<S>,
    item: u32,
    asker: u32,
    number: u32,
) -> Result<Option<Question>, KeepFault>
    requires { Serves (state S.Store conn.old) }
    ensures finds { Finds S.Store conn.old conn.new result
        (λ db found. found ≡ find (is_question item asker number) (questions_in db))
        (λ db. IfSome (find (is_question item asker number) (questions_in db)) QuestionFits) }
    ensures fits { IfOk result (λ found. IfSome found QuestionFits) }
{
    let rows = rows_shown(
        conn,
        "SELECT item, asker, n, answer, body FROM question WHERE item = ?1 AND asker = ?2 AND n = ?3 ORDER BY rowid",
        params![item, asker, number],
    )?;
    first_of(&rows)
}
