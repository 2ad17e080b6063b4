//! Laws of the definitions, each on a function of its own without a body.
ghost use Rattle.elimination.specs.Laws.{
  EachIsListedOnce,
  EntriesAreTakenOnce,
  FailingRunsFall,
  OneElimination,
  OrderOfRunsIsFree,
  PredicatesAreThoseOfTheTable,
};

/// The predicates are those of the site table, and an entry observes those of its site.
pub fn predicates_are_those_of_the_table()
    ensures { PredicatesAreThoseOfTheTable }
{}

/// Runs have one elimination, in whatever order they stand; it lists a predicate once at most; and each of its steps leaves fewer failing runs.
pub fn one_elimination()
    ensures one { OneElimination }
    ensures order { OrderOfRunsIsFree }
    ensures once { EachIsListedOnce }
    ensures falls { FailingRunsFall }
{}

/// All steps of an elimination take each site entry once at most.
pub fn entries_are_taken_once()
    ensures { EntriesAreTakenOnce }
{}
