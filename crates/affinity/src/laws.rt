//! Laws of the definitions, each on a function of its own without a body.
ghost use Rattle.affinity.specs.Laws.{NoneIsNearItself, OneNear, RoundsAreCompared};

/// Over runs there is one list of the predicates near another one, and it isn't in the list itself. For the first leader of an elimination that discards
/// its runs, the importances compared are those of the first and of the second round.
pub fn near_lists_are_one()
    ensures one { OneNear }
    ensures other { NoneIsNearItself }
    ensures rounds { RoundsAreCompared }
{}
