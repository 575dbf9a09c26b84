//! What others learn of a question, and of a bid.
ghost use Rattle.std.specs.Prelude.{◌≡◌, ◌==◌, ◌∷◌, ◌++◌, ℕ, List, [], true, false, Some, None};
ghost use Rattle.std.specs.List.{Contains};
ghost use Rattle.house_rows.specs.declared.command.Command.TheVariants.{Ask, Bid};
ghost use Rattle.house_rows.specs.declared.settings.Settings.{Settings};
ghost use Rattle.house_rows.specs.History.{Entry, History};
ghost use Rattle.house_rows.specs.Items.{items_shown, shown_at};
ghost use Rattle.house_rows.specs.Listings.{Listing, is_seller, listing_at, listings};
ghost use Rattle.house_rows.specs.Questions.{answered, waiting};
ghost use Rattle.house_rows.specs.Runs.{entry};
ghost use Rattle.house_rows.specs.Verdict.{IsHistory, verdict};
ghost use Rattle.house_rows.specs.Views.{own_questions};
ghost use Rattle.house_laws.specs.Alike.{AreAlike};
ghost use Rattle.house_laws.specs.Asking.{IsOutsider, is_answered, new_question};

/// A question is seen by its asker and the seller alone until it is answered. Its asker has it among
/// its own, and it waits for the seller. To every other member the house looks as if nothing had
/// been asked. Whatever follows, as long as the question has no answer, it looks as if another text
/// had been asked. By `replies_depend_on_views` no read and no verdict shows such a member more.
pub fn questions_are_private_until_answered()
    ensures asker { (moment asker item : ℕ) (text : List ℕ) (h : History) (later : List Entry)
        → Contains (own_questions (later ++ entry moment asker (Ask item text) ∷ h) asker)
        (new_question h asker item text) }
    ensures seller { (c moment asker item : ℕ) (text : List ℕ) (h : History) (later : List Entry)
        → is_seller (listing_at (listings (later ++ entry moment asker (Ask item text) ∷ h)) item) c
        ≡ true
        → is_answered (later ++ entry moment asker (Ask item text) ∷ h)
        (new_question h asker item text) ≡ false
        → Contains (waiting (later ++ entry moment asker (Ask item text) ∷ h) c)
        (answered [] (new_question h asker item text)) }
    ensures unseen { (settings : Settings) (c moment asker item : ℕ) (text : List ℕ) (h : History)
        → IsHistory settings h → verdict settings h moment asker (Ask item text) ≡ None
        → IsOutsider h asker item c
        → AreAlike settings c (entry moment asker (Ask item text) ∷ h) h }
    ensures unread { (settings : Settings) (c moment asker item : ℕ) (text other : List ℕ)
        (h : History) (later : List Entry)
        → IsOutsider (later ++ entry moment asker (Ask item text) ∷ h) asker item c
        → is_answered (later ++ entry moment asker (Ask item text) ∷ h)
        (new_question h asker item text) ≡ false
        → AreAlike settings c (later ++ entry moment asker (Ask item text) ∷ h)
        (later ++ entry moment asker (Ask item other) ∷ h) }
{}

/// A seller learns of a bid only what everybody is shown of the item. Take two histories that are
/// alike for it, and a bid on its item in each, by anybody and of any maxima. Where the item is then
/// shown the same, the histories are alike for it again. So it is for all others that haven't bid.
pub fn sellers_learn_what_is_shown()
    ensures seller { (settings : Settings) (moment left right x y : ℕ) (h k : History) (l : Listing)
        → listing_at (listings h) l.item ≡ Some l → AreAlike settings l.seller h k
        → verdict settings h moment left (Bid l.item x) ≡ None
        → verdict settings k moment right (Bid l.item y) ≡ None
        → shown_at (items_shown settings (entry moment left (Bid l.item x) ∷ h)) l.item
        ≡ shown_at (items_shown settings (entry moment right (Bid l.item y) ∷ k)) l.item
        → AreAlike settings l.seller (entry moment left (Bid l.item x) ∷ h)
        (entry moment right (Bid l.item y) ∷ k) }
    ensures others { (settings : Settings) (c moment left right item x y : ℕ) (h k : History)
        → AreAlike settings c h k → (left == c) ≡ false → (right == c) ≡ false
        → shown_at (items_shown settings (entry moment left (Bid item x) ∷ h)) item
        ≡ shown_at (items_shown settings (entry moment right (Bid item y) ∷ k)) item
        → AreAlike settings c (entry moment left (Bid item x) ∷ h)
        (entry moment right (Bid item y) ∷ k) }
{}
