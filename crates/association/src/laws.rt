//! Laws of the definitions, each on a function of its own without a body.
ghost use Rattle.association.specs.Laws.{
  IsStrictTotalOrder,
  NoneIsAboveOne,
  OnlyPerfectPredictorsAreOne,
  PerfectPredictorsAreOne,
  RolesAreSymmetric,
  SidesAreSymmetric,
};

/// The strength is 1 for a predicate that is true in all failing runs and in no other, and for no other; none is above 1. It is the same where the predicate
/// and failing change roles, and where both are turned into their opposites.
pub fn strength_is_a_square_of_correlation()
    ensures at_most { NoneIsAboveOne }
    ensures perfect { PerfectPredictorsAreOne }
    ensures only { OnlyPerfectPredictorsAreOne }
    ensures roles { RolesAreSymmetric }
    ensures sides { SidesAreSymmetric }
{}

/// Of two predicates with different numbers one is better, and none is better than itself; what is better than a better one is better.
pub fn order_is_strict_and_total()
    ensures { IsStrictTotalOrder }
{}
