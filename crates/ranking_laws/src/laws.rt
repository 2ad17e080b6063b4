//! Laws of the definitions, each on a function of its own without a body.
ghost use Rattle.ranking_laws.specs.Laws.{
  CollectionsHaveOneTextOfCards,
  PredicatesHaveOneCard,
  PredicatesHaveOneNearList,
  RunsHaveOneElimination,
  RunsHaveOneFound,
  RunsHaveOneRanking,
};

/// Runs have one elimination under each policy, over whichever sites, and so one ranking.
pub fn one_ranking()
    ensures elimination { RunsHaveOneElimination }
    ensures text { RunsHaveOneRanking }
{}

/// A predicate has one list of those near it, and one card where it was true in a failing run; so runs have one text of cards.
pub fn one_card_each()
    ensures near { PredicatesHaveOneNearList }
    ensures card { PredicatesHaveOneCard }
    ensures text { CollectionsHaveOneTextOfCards }
{}

/// Of the pairs of predicates one thing is found: the candidates, which pairs are skipped, and the best one or none.
pub fn one_best_pair()
    ensures { RunsHaveOneFound }
{}
