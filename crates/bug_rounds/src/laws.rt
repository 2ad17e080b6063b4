//! Laws of the definitions, each on a function of its own without a body.
ghost use Rattle.bug_rounds.specs.Laws.{
  EachFailingRunIsInOneBugOrLeft,
  EachNamesItsFirstRun,
  FirstBugIsTheFirstLine,
  OneTextOfBugs,
  OrderIsFreeForBugs,
  RoundsAreOfElimination,
  SuccessfulRunsStay,
};

/// A round leaves what the step of iterative elimination leaves that discards the leader's failing runs; so all successful runs stay.
pub fn rounds_are_of_elimination()
    ensures step { RoundsAreOfElimination }
    ensures successful { SuccessfulRunsStay }
{}

/// Each failing run is an own run of exactly one bug, or left; the first bug's leader is the first suspicious line; and each bug names the least of its own
/// runs.
pub fn bugs_share_the_failing_runs()
    ensures parts { EachFailingRunIsInOneBugOrLeft }
    ensures line { FirstBugIsTheFirstLine }
    ensures first { EachNamesItsFirstRun }
{}

/// A collection has one text of bugs, in whatever order its reports stand.
pub fn there_is_one_text_of_bugs()
    ensures one { OneTextOfBugs }
    ensures order { OrderIsFreeForBugs }
{}
