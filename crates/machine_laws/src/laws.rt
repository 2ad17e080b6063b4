//! Laws of the definitions, each on a function of its own without a body.
ghost use Rattle.machine_laws.specs.Laws.{EachRunEnds, ReportsOfRunsAreTaken, SitesSeeWhatTheyMay};

/// Each program ends on each input, with each bank, within each bound of turns: it ends, traps or is cut. So no statement on how a run ends is empty.
pub fn each_run_ends()
    ensures { EachRunEnds }
{}

/// What a run observes it sees at sites of its program, and at a branch that the condition is true or that it is false.
pub fn sites_see_what_they_may()
    ensures { SitesSeeWhatTheyMay }
{}

/// A collection with a program's sites takes the sites of the report of each of its runs.
pub fn reports_of_runs_are_taken()
    ensures { ReportsOfRunsAreTaken }
{}
