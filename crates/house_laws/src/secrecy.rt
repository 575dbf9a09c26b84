//! Isolation, and the three parts that it follows from.
ghost use Rattle.std.specs.Prelude.{◌≡◌, ◌==◌, ◌∷◌, ℕ, List, length, map, None, true, false};
ghost use Rattle.house_laws.specs.Alike.{AreAlike};
ghost use Rattle.house_laws.specs.Lives.{AreTwinLives, Life, lives_history, rendered_in_lives};
ghost use Rattle.house_rows.specs.declared.command.Command.{Command};
ghost use Rattle.house_rows.specs.declared.command.Command.TheVariants.{Ask};
ghost use Rattle.house_rows.specs.declared.message.Message.{Message};
ghost use Rattle.house_rows.specs.declared.query.Query.{Query};
ghost use Rattle.house_rows.specs.declared.reply.Reply.{Reply};
ghost use Rattle.house_rows.specs.declared.settings.Settings.{Settings};
ghost use Rattle.house_rows.specs.History.{Entry, History};
ghost use Rattle.house_rows.specs.Listings.{is_seller, listing_at, listings};
ghost use Rattle.house_rows.specs.Pages.{page_of};
ghost use Rattle.house_rows.specs.Questions.{waiting};
ghost use Rattle.house_rows.specs.Runs.{AreTwins, AreTwinsFrom, Twin, entry, history_from, rendered_from, rendered_to, replies_to};
ghost use Rattle.house_rows.specs.CommandResult.{result_of};
ghost use Rattle.house_rows.specs.Verdict.{IsHistory, verdict};
ghost use Rattle.house_rows.specs.Views.{own_view, public_view};

/// For every number `c`, the house's 0 among them: where two runs are twins for it, all replies to it
/// are the same.
///
/// `messages` says so of lists of messages. `rendered` says it of whatever means a message: of elements
/// that are equal at the places of `c`, and of the replies as these have them rendered, so that a reply
/// may depend on more than the message, as its bytes do on whether the connection ends.
#[tactic(auto, using(crate::proofs::Alike::isolation, crate::proofs::Alike::message_isolation))]
pub fn isolation<A, B, F>()
    ensures messages { (settings : Settings) (c : ℕ) (left right : List (Message F)) → Twin settings c left right
        → replies_to settings c left ≡ replies_to settings c right }
    ensures rendered { (meant : A → Message F) (rendered : A → Reply F → B) (settings : Settings) (c : ℕ) (left right : List A)
        → AreTwins meant settings c left right
        → rendered_to meant rendered settings c left ≡ rendered_to meant rendered settings c right }
{}

/// Isolation from any point on: for every number `c` and any two histories that are alike for it,
/// where two runs from there on are twins for it, all replies to it are the same, and the histories
/// after them are alike again. So it goes on over whatever follows.
///
/// `isolation` is the case of two new houses. The histories may be any lists of entries, those that
/// a house makes among them.
#[tactic(auto, using(crate::proofs::Alike::rendered_same, crate::proofs::Alike::alike_again))]
pub fn isolation_from_any_point<A, B, F>()
    ensures rendered { (meant : A → Message F) (rendered : A → Reply F → B) (settings : Settings)
        (c : ℕ) (h k : History) (left right : List A)
        → AreAlike settings c h k → AreTwinsFrom meant settings c h k left right
        → rendered_from meant rendered settings c h left
        ≡ rendered_from meant rendered settings c k right }
    ensures alike_again { (meant : A → Message F) (settings : Settings)
        (c : ℕ) (h k : History) (left right : List A)
        → AreAlike settings c h k → AreTwinsFrom meant settings c h k left right
        → AreAlike settings c (history_from settings h (map meant left))
        (history_from settings k (map meant right)) }
{}

/// Isolation over crashes: for every number `c` and any two histories that are alike for it, where
/// lives from there on are twins for it, the replies at its answered places are the same, life by
/// life, and the histories after them are alike again.
///
/// So it is whatever a crash kept of what others had in flight, as long as everybody sees the same.
/// Of what the member itself had in flight the same has to be kept: `twin_lives_may_differ` has
/// lives in which it isn't. After lives of a history there is a history, from which the next life
/// goes on.
#[tactic(auto, using(crate::proofs::Lives::rendered_lives, crate::proofs::Lives::alike_after_lives, crate::proofs::Lives::lives_are_histories))]
pub fn isolation_over_crashes<A, B, F>()
    ensures rendered { (meant : A → Message F) (rendered : A → Reply F → B) (settings : Settings)
        (c : ℕ) (h k : History) (left right : List (Life A))
        → AreAlike settings c h k → AreTwinLives meant settings c h k left right
        → rendered_in_lives meant rendered settings c h left
        ≡ rendered_in_lives meant rendered settings c k right }
    ensures alike_again { (meant : A → Message F) (settings : Settings)
        (c : ℕ) (h k : History) (left right : List (Life A))
        → AreAlike settings c h k → AreTwinLives meant settings c h k left right
        → AreAlike settings c (lives_history meant settings h left)
        (lives_history meant settings k right) }
    ensures history { (meant : A → Message F) (settings : Settings) (h : History)
        (lives : List (Life A)) → IsHistory settings h
        → IsHistory settings (lives_history meant settings h lives) }
{}

/// Local: no accepted entry of another changes what a member has of its own, and of others' entries
/// only a question on the member's item changes what waits for it.
#[tactic(auto, using(house_rows::proofs::Own::own_local, crate::proofs::Waiting::waiting_local))]
pub fn views_are_local()
    ensures own { (c : ℕ) (h : History) (e : Entry) → (e.caller == c) ≡ false → own_view (e ∷ h) c ≡ own_view h c }
    ensures waiting { (settings : Settings) (c : ℕ) (h : History) (moment caller : ℕ) (command : Command)
        → (caller == c) ≡ false → verdict settings h moment caller command ≡ None
        → ((i : ℕ) (text : List ℕ) → command ≡ Ask i text → is_seller (listing_at (listings h) i) c ≡ false)
        → waiting (entry moment caller command ∷ h) c ≡ waiting h c }
{}

/// Step: an entry of a member changes what it has of its own equally in two histories in which that is
/// the same, and in which as many items are listed: a reserve is kept with the number of its item.
#[tactic(auto, using(house_rows::proofs::Own::own_step))]
pub fn commands_step_equally()
    ensures { (c : ℕ) (h k : History) (moment : ℕ) (command : Command)
        → length (listings h) ≡ length (listings k) → own_view h c ≡ own_view k c
        → own_view (entry moment c command ∷ h) c ≡ own_view (entry moment c command ∷ k) c }
{}

/// Output: the verdict on a member's command and what each of its reads shows depend on the public
/// view, its own view and what waits for it; the result of an accepted command depends on these,
/// and on the public view after it.
#[tactic(auto, using(crate::proofs::Output::verdict_same, crate::proofs::Alike::report_after, crate::proofs::Shown::page_same))]
pub fn replies_depend_on_views()
    ensures verdict { (settings : Settings) (c : ℕ) (h k : History) (moment : ℕ) (command : Command)
        → AreAlike settings c h k → verdict settings h moment c command ≡ verdict settings k moment c command }
    ensures page { (settings : Settings) (c : ℕ) (h k : History) (query : Query)
        → AreAlike settings c h k → page_of settings h c query ≡ page_of settings k c query }
    ensures report { (settings : Settings) (c : ℕ) (h k : History) (moment : ℕ) (command : Command)
        → AreAlike settings c h k
        → public_view settings (entry moment c command ∷ h) ≡ public_view settings (entry moment c command ∷ k)
        → result_of settings (entry moment c command ∷ h) moment c command h
        ≡ result_of settings (entry moment c command ∷ k) moment c command k }
{}
