//! Worked rows of reserves.
ghost use Rattle.house_laws.specs.ReserveRows.{MetReserveIsThePrice, MetReserveMakesNoTwin};
ghost use Rattle.house_laws.specs.ReserveRows.{OwnReserveMakesNoTwin, RaiseMeetsTheReserve};
ghost use Rattle.house_laws.specs.ReserveRows.{ReserveIsInRange, ReservesAreTheSellers};
ghost use Rattle.house_laws.specs.ReserveRows.{SealedReservesMakeTwins, UnbidReserveIsUnmet};
ghost use Rattle.house_laws.specs.ReserveRows.{UnmetReserveIsNotSold, UnmetReserveLeavesThePrice};

/// The definitions give the values that were worked out by hand for reserves;
/// `specs/ReserveRows.antt` has them.
pub fn reserves_worked()
    ensures unbid { UnbidReserveIsUnmet }
    ensures unmet { UnmetReserveLeavesThePrice }
    ensures met { MetReserveIsThePrice }
    ensures raised { RaiseMeetsTheReserve }
    ensures unsold { UnmetReserveIsNotSold }
    ensures in_range { ReserveIsInRange }
    ensures own { ReservesAreTheSellers }
{}

/// Two runs in which another's sealed reserve differs are twins for a member, unless a bid meets one
/// of them alone.
pub fn sealed_reserves_may_differ<F>()
    ensures twins { SealedReservesMakeTwins F }
    ensures met { MetReserveMakesNoTwin F }
    ensures own { OwnReserveMakesNoTwin F }
{}
