//! A surplus is invisible.
ghost use Rattle.std.specs.Prelude.{◌≡◌, ◌↔◌, ℕ, List};
ghost use Rattle.steps.specs.Table.{IsBandTable};
ghost use Rattle.house_laws.specs.SurplusRuns.{BidThatIsNotTheLastMakesNoTwin};
ghost use Rattle.house_laws.specs.SurplusRuns.{LeaderWhoIsOvertakenMakesNoTwin};
ghost use Rattle.house_laws.specs.SurplusRuns.{LessThanAStepMakesNoTwin};
ghost use Rattle.house_laws.specs.SurplusRuns.{MaximumUnderTheReserveMakesNoTwin};
ghost use Rattle.house_laws.specs.SurplusRuns.{MetReserveIsCovered, SurplusIsCovered};
ghost use Rattle.house_laws.specs.Covered.{IsCovered, IsLedByBoth, Sealed, bid_message, raised, with_maximum};
ghost use Rattle.house_rows.specs.declared.message.Message.{Message};
ghost use Rattle.house_rows.specs.declared.reply.Reply.{Reply};
ghost use Rattle.house_rows.specs.declared.settings.Settings.{Settings};
ghost use Rattle.house_rows.specs.Runs.{AreTwins, Twin, rendered_to, replies_to};

/// Where the last leader's last bid covers what leading takes, a greater maximum in its place makes a
/// twin run for everybody else: what is public agrees after every step, and so do all replies to
/// another.
///
/// `twins` and `rendered` say so of whatever means a message, and `messages` and `replies` of messages.
pub fn surplus_is_invisible<A, B, F>()
    ensures twins { (meant : A → Message F) (settings : Settings)
        (c place y : ℕ) (b : Sealed) (run : List A) (other : A)
        → IsBandTable settings.bands → IsCovered meant settings c place y b run
        → meant other ≡ bid_message (with_maximum y b)
        → AreTwins meant settings c run (raised place other run) }
    ensures rendered { (meant : A → Message F) (rendered : A → Reply F → B) (settings : Settings)
        (c place y : ℕ) (b : Sealed) (run : List A) (other : A)
        → IsBandTable settings.bands → IsCovered meant settings c place y b run
        → meant other ≡ bid_message (with_maximum y b)
        → rendered_to meant rendered settings c run
        ≡ rendered_to meant rendered settings c (raised place other run) }
    ensures messages { (settings : Settings) (c place y : ℕ) (b : Sealed) (run : List (Message F))
        → IsBandTable settings.bands → IsCovered (λ m. m) settings c place y b run
        → Twin settings c run (raised place (bid_message (with_maximum y b)) run) }
    ensures replies { (settings : Settings) (c place y : ℕ) (b : Sealed) (run : List (Message F))
        → IsBandTable settings.bands → IsCovered (λ m. m) settings c place y b run
        → replies_to settings c run ≡ replies_to settings c (raised place (bid_message (with_maximum y b)) run) }
{}

/// Whether a bid is covered shows when both runs have been played: where they are twins for the
/// member, and in the end the bidder leads the one by its maximum and the other by the greater one.
pub fn covers_show_in_the_end<A, F>()
    ensures { (meant : A → Message F) (settings : Settings) (c place y : ℕ) (b : Sealed) (run : List A) (other : A)
        → IsBandTable settings.bands → meant other ≡ bid_message (with_maximum y b)
        → (IsCovered meant settings c place y b run ↔ IsLedByBoth meant settings c place y b run other) }
{}

/// Runs of eight messages in which a surplus is covered, one of them with a reserve; and runs in
/// which one premise of that doesn't hold and which are no twins of theirs with a greater maximum.
/// `specs/SurplusRuns.antt` has the messages.
pub fn surplus_needs_its_premises<F>()
    ensures covered { SurplusIsCovered F }
    ensures step { LessThanAStepMakesNoTwin F }
    ensures last { BidThatIsNotTheLastMakesNoTwin F }
    ensures leads { LeaderWhoIsOvertakenMakesNoTwin F }
    ensures met { MetReserveIsCovered F }
    ensures reserve { MaximumUnderTheReserveMakesNoTwin F }
{}
