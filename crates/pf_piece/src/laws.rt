//! What a piece of a network tells of the network. Each law is the contract of a function that does nothing.

ghost use Rattle.pf_piece.specs.Laws.{CapacityLifts, LineLifts, LiftIsBetween, BetweenIsLift, EndsAreNested, FallingEndsAreEqual, SmallestLifts, CoreHasSmallest, CoreIsBuilt};

/// The capacity of a cut of the piece is that of its lift, at every parameter.
pub fn capacity_lifts()
    ensures capacity { CapacityLifts }
    ensures line { LineLifts }
{}

/// Each cut of the network between the two sides is the lift of one cut of the piece, and there are no other lifts.
pub fn lifts_are_cuts_between()
    ensures between { LiftIsBetween }
    ensures lift { BetweenIsLift }
{}

/// Between the smallest least cuts at two parameters, of which the one at the lower parameter is contained in the other, the piece's
/// smallest least cut lifts to the network's. In a rising network they are so; in a falling one only if they are equal.
pub fn smallest_lifts()
    ensures nested { EndsAreNested }
    ensures equal { FallingEndsAreEqual }
    ensures lifts { SmallestLifts }
{}

/// The arcs from the piece's source to its sink, and those back, change no smallest least cut; without them it is a
/// monotone network.
pub fn core_has_smallest()
    ensures smallest { CoreHasSmallest }
    ensures built { CoreIsBuilt }
{}
