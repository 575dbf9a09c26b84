//! Worked rows: the definitions on literal histories.
ghost use Rattle.house_laws.specs.WorkedRows.{AnswersAreTheSellersAndOnce, AskLeavesTheClock};
ghost use Rattle.house_laws.specs.WorkedRows.{BidAtTheEndIsTooLate, BidUnderTheSealedTopIsAccepted};
ghost use Rattle.house_laws.specs.WorkedRows.{BuyNowStandsUntilTheFirstBid, CallersAreKnown};
ghost use Rattle.house_laws.specs.WorkedRows.{CloseTakesWhatEndsNow, EarlierMomentIsRefused};
ghost use Rattle.house_laws.specs.WorkedRows.{EqualMaximumAtOneMomentKeepsTheEarlierLeader};
ghost use Rattle.house_laws.specs.WorkedRows.{EqualMaximumKeepsTheEarlierLeader, FeeIsRoundedDown};
ghost use Rattle.house_laws.specs.WorkedRows.{FirstBidTakesTheStart, GreatRaisePaysOneStepOver};
ghost use Rattle.house_laws.specs.WorkedRows.{GreatestAmountIsTaken, HigherBidPaysOneStepOver};
ghost use Rattle.house_laws.specs.WorkedRows.{ItemIsShown, LowBidIsRefused};
ghost use Rattle.house_laws.specs.WorkedRows.{NamesAndLotsAreTakenOnce};
ghost use Rattle.house_laws.specs.WorkedRows.{OnlyAnsweredQuestionsArePublished, OwnBidsAreShown};
ghost use Rattle.house_laws.specs.WorkedRows.{PartiesRateEachOtherOnce};
ghost use Rattle.house_laws.specs.WorkedRows.{QuestionsAreNumberedByAsker, RaiseIsNoSecondBidder};
ghost use Rattle.house_laws.specs.WorkedRows.{SameMaximumIsRefused, SellersKeepOffTheirItems};
ghost use Rattle.house_laws.specs.WorkedRows.{WatchLeavesTheClock};
ghost use Rattle.house_laws.specs.WrongReadings.{CloseTakesWhatEndsNow as CloseTakes};
ghost use Rattle.house_laws.specs.WrongReadings.{FeesAreRoundedDown, QuestionNumbersAreNotShared};
ghost use Rattle.house_laws.specs.WrongReadings.{RaisesAreNoSecondBidder, StepsAreTakenAtTheSecond};
ghost use Rattle.house_laws.specs.WrongReadings.{TiesGoToTheEarlier, WatchAndAskLeaveTheClock};

/// The definitions give the values that were worked out by hand; `specs/WorkedRows.antt` has them.
pub fn worked_rows()
    ensures item_is_shown { ItemIsShown }
    ensures first_bid_takes_the_start { FirstBidTakesTheStart }
    ensures low_bid_is_refused { LowBidIsRefused }
    ensures higher_bid_pays_one_step_over { HigherBidPaysOneStepOver }
    ensures equal_maximum_keeps_the_earlier_leader { EqualMaximumKeepsTheEarlierLeader }
    ensures equal_maximum_at_one_moment_keeps_the_earlier_leader { EqualMaximumAtOneMomentKeepsTheEarlierLeader }
    ensures raise_is_no_second_bidder { RaiseIsNoSecondBidder }
    ensures great_raise_pays_one_step_over { GreatRaisePaysOneStepOver }
    ensures bid_under_the_sealed_top_is_accepted { BidUnderTheSealedTopIsAccepted }
    ensures same_maximum_is_refused { SameMaximumIsRefused }
    ensures greatest_amount_is_taken { GreatestAmountIsTaken }
    ensures own_bids_are_shown { OwnBidsAreShown }
    ensures bid_at_the_end_is_too_late { BidAtTheEndIsTooLate }
    ensures close_takes_what_ends_now { CloseTakesWhatEndsNow }
    ensures earlier_moment_is_refused { EarlierMomentIsRefused }
    ensures buy_now_stands_until_the_first_bid { BuyNowStandsUntilTheFirstBid }
    ensures questions_are_numbered_by_asker { QuestionsAreNumberedByAsker }
    ensures only_answered_questions_are_published { OnlyAnsweredQuestionsArePublished }
    ensures answers_are_the_sellers_and_once { AnswersAreTheSellersAndOnce }
    ensures watch_leaves_the_clock { WatchLeavesTheClock }
    ensures ask_leaves_the_clock { AskLeavesTheClock }
    ensures fee_is_rounded_down { FeeIsRoundedDown }
    ensures parties_rate_each_other_once { PartiesRateEachOtherOnce }
    ensures sellers_keep_off_their_items { SellersKeepOffTheirItems }
    ensures names_and_lots_are_taken_once { NamesAndLotsAreTakenOnce }
    ensures callers_are_known { CallersAreKnown }
{}

/// Wrong readings of the rules differ from the right ones; `specs/WrongReadings.antt` has each with a
/// history on which it does.
pub fn wrong_readings_differ()
    ensures ties_go_to_the_earlier { TiesGoToTheEarlier }
    ensures raises_are_no_second_bidder { RaisesAreNoSecondBidder }
    ensures steps_are_taken_at_the_second { StepsAreTakenAtTheSecond }
    ensures question_numbers_are_not_shared { QuestionNumbersAreNotShared }
    ensures watch_and_ask_leave_the_clock { WatchAndAskLeaveTheClock }
    ensures close_takes_what_ends_now { CloseTakes }
    ensures fees_are_rounded_down { FeesAreRoundedDown }
{}
