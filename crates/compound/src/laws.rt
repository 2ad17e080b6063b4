//! Laws of the definitions, each on a function of its own without a body.
ghost use Rattle.compound.specs.Laws.{EachPairIsCountedOrSkipped, NoneIsAboveItsBound, OrderIsFreeForPairs};

/// Each pair of two candidates is counted or skipped, a predicate is no pair with itself, and the order of the runs is free.
pub fn pairs_add_up()
    ensures parts { EachPairIsCountedOrSkipped }
    ensures order { OrderIsFreeForPairs }
{}

/// No importance of a pair is above its bound.
pub fn no_importance_is_above_its_bound()
    ensures { NoneIsAboveItsBound }
{}
