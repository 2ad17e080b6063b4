//! Laws of the definitions, each on a function of its own without a body.
ghost use Rattle.ranking.specs.Laws.{EliminationsAreRows};

/// The leaders of an elimination of at most 100,000 runs are rows that a text can have.
pub fn eliminations_are_rows()
    ensures { EliminationsAreRows }
{}
