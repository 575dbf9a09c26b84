//! Twin runs and twin lives that differ: the premises of isolation are met by them.
ghost use Rattle.house_laws.specs.TwinLives.{KeptBidMakesNoTwin, OwnChoiceIsAnswered};
ghost use Rattle.house_laws.specs.TwinLives.{OwnChoiceMakesNoTwin, SealedLivesAreTwins};
ghost use Rattle.house_laws.specs.TwinLives.{TwinLivesGetTheseReplies};
ghost use Rattle.house_laws.specs.TwinRuns.{CappedPriceMakesNoTwin, LowMaximumCapsThePrice};
ghost use Rattle.house_laws.specs.TwinRuns.{OwnMessageMakesNoTwin, SealedMaximaMakeTwins};
ghost use Rattle.house_laws.specs.TwinRuns.{TwinsGetTheseReplies};

/// Two runs of eight messages in which another's sealed maximum differs are twins for a member, and
/// these are the replies to it there; where the price shows the difference, or the message is its
/// own, they are no twins. `specs/TwinRuns.antt` has the messages.
pub fn twin_runs_may_differ<F>()
    ensures sealed_maxima_make_twins { SealedMaximaMakeTwins F }
    ensures twins_get_these_replies { TwinsGetTheseReplies F }
    ensures low_maximum_caps_the_price { LowMaximumCapsThePrice }
    ensures capped_price_makes_no_twin { CappedPriceMakesNoTwin F }
    ensures own_message_makes_no_twin { OwnMessageMakesNoTwin F }
{}

/// Two lives of a house, twice: another's sealed maximum differs, and so does whether a crash kept
/// another's watch. They are twins for a member, and these are the replies to it in them. Where the
/// crash kept its own watch in one of them alone, they look alike to it, it gets other replies, and
/// they are no twins. Nor are they where another's bid was kept in one of them alone.
/// `specs/TwinLives.antt` has the messages.
pub fn twin_lives_may_differ<F>()
    ensures sealed_lives_are_twins { SealedLivesAreTwins F }
    ensures twin_lives_get_these_replies { TwinLivesGetTheseReplies F }
    ensures own_choice_is_answered { OwnChoiceIsAnswered F }
    ensures own_choice_makes_no_twin { OwnChoiceMakesNoTwin F }
    ensures kept_bid_makes_no_twin { KeptBidMakesNoTwin F }
{}
