//! How members were rated.
ghost use Rattle.std.specs.Prelude.{◌≡◌, ◌==◌, OnOk};
ghost use Rattle.sqlite.specs.Held.{state};
ghost use Rattle.sqlite.specs.State.{HasCleanDisk};
ghost use Rattle.house_rows.specs.History.{counted};
ghost use Rattle.house_rows.specs.Taken.{FitWhere};
ghost use Rattle.house_rows.specs.Pages.{ratings_of};
ghost use Rattle.house_rows.specs.Ratings.{is_minus, is_plus, is_zero};
ghost use Rattle.house_rows.specs.Fits.{FeedbackFits};
ghost use Rattle.store_rows.specs.Rows.{feedback_in};
ghost use Rattle.store_rows.specs.House.{Serves};
ghost use Rattle.store_rows.specs.Tables.{tables_in};
ghost use Rattle.store_rows.specs.Frames.{Finds};

use crate::feedback::feedback_rows;
use house_rows::{Feedback, KeepFault, Rating, Ratings};
use sqlite::{Alter, Connection};
use std::alloc::Global;

// How often each rating comes.
fn counts_of(given: &[Feedback]) -> Ratings
    ensures plus { result.plus ≡ counted (λ f. is_plus f.rating) given.now }
    ensures zero { result.zero ≡ counted (λ f. is_zero f.rating) given.now }
    ensures minus { result.minus ≡ counted (λ f. is_minus f.rating) given.now }
{
    let mut plus = 0;
    let mut zero = 0;
    let mut minus = 0;
    for feedback in given {
        match feedback.rating {
            Rating::Plus => plus += 1,
            Rating::Zero => zero += 1,
            Rating::Minus => minus += 1,
        }
    }
    Ratings { plus, zero, minus }
}

/// How often a member was rated with each rating.
pub fn ratings<S: Alter>(
    alloc: Global,
    conn: &mut Connection<S>,
    member: u32,
) -> Result<Ratings, KeepFault>
    requires { Serves (state S.Store conn.old) }
    ensures finds { Finds S.Store conn.old conn.new result
        (λ db counts. counts ≡ ratings_of (tables_in db).feedback member)
        (λ db. FitWhere (λ f. f.to == member) FeedbackFits (feedback_in db)) }
    ensures fits { HasCleanDisk (state S.Store conn.new) → OnOk result
        (FitWhere (λ f. f.to == member) FeedbackFits
        (feedback_in (state S.Store conn.old).now.trees)) }
{
    let given = feedback_rows(alloc, conn, member)?;
    Ok(counts_of(&given))
}
