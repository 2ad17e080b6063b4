//! The headline over calls of the executable, and its likes, each on a function that does nothing but call on the laws below it.
ghost use Rattle.executable.specs.Closed.{
  ASessionOfCallsIsTheHeadline,
  AStudyIsTheHeadline,
  TheBugsOfCallsAreOfMeantRuns,
  TheCardsOfCallsAreOfMeantRuns,
  TheExecutableIsTheHeadline,
  TheLinesOfCallsAreOfMeantRuns,
  ThePairsOfCallsAreOfMeantRuns,
  TheRunsOfAListAreTheHeadline,
};
ghost use Rattle.executable.specs.Shares.{AFarmOfCallsIsTheHeadline};

use headline::{
    a_farm_is_the_elimination, a_session_is_the_headline, bugs_are_of_meant_runs,
    cards_are_of_meant_runs, lines_are_of_meant_runs, pairs_are_of_meant_runs,
    the_commands_are_the_headline, the_ranking_of_runs_is_the_elimination,
};
use std::alloc::Global;
use study_runs::one_made_run;

/// The headline, closed. The executable is called to transform a C text to PROG, to run PROG and leave reports, to collect these to COLL, and to rank COLL,
/// each time with status 0, and each file that a call reads holds what an earlier call put out or left. Then the text is accepted, and what the last call
/// put out is the ranking of the elimination of these runs as the text means them. The runs may be any number, each with a bank, an input, an expected
/// output, a bound of turns and a number of its own, and collected in any order, grouping, repetition and depth.
pub fn the_executable_is_the_headline(alloc: Global)
    ensures { TheExecutableIsTheHeadline }
{
    the_commands_are_the_headline(alloc);
}

/// The cards that are put out at the end of such calls are those of these runs as the text means them.
pub fn cards_of_calls_are_of_meant_runs(alloc: Global)
    ensures { TheCardsOfCallsAreOfMeantRuns }
{
    cards_are_of_meant_runs(alloc);
}

/// So is the best pair.
pub fn pairs_of_calls_are_of_meant_runs(alloc: Global)
    ensures { ThePairsOfCallsAreOfMeantRuns }
{
    pairs_are_of_meant_runs(alloc);
}

/// So are the suspicious lines.
pub fn lines_of_calls_are_of_meant_runs(alloc: Global)
    ensures { TheLinesOfCallsAreOfMeantRuns }
{
    lines_are_of_meant_runs(alloc);
}

/// So are the bugs.
pub fn bugs_of_calls_are_of_meant_runs(alloc: Global)
    ensures { TheBugsOfCallsAreOfMeantRuns }
{
    bugs_are_of_meant_runs(alloc);
}

/// So is the ranking that a session puts out which adds the reports of such texts and then asks for it.
pub fn a_session_of_calls_is_the_headline(alloc: Global)
    ensures { ASessionOfCallsIsTheHeadline }
{
    a_session_is_the_headline(alloc);
}

/// The ranking that is put out of the collection that one call of `runs` put out is that of its runs, line by line, as the text means them.
pub fn the_runs_of_a_list_are_the_headline(alloc: Global)
    ensures { TheRunsOfAListAreTheHeadline }
{
    the_ranking_of_runs_is_the_elimination(alloc);
}

/// A farm: each machine transforms the text for its share of the sites, runs that program, collects its runs and widens the collection. The ranking that is
/// put out of these, collected for the program of all sites, is that of all their runs as the text means them, and site s of the program of the share I/N
/// is the site I + s * N of the program of all sites.
pub fn a_farm_of_calls_is_the_headline(alloc: Global)
    ensures { AFarmOfCallsIsTheHeadline }
{
    a_farm_is_the_elimination(alloc);
}

/// One call of `study` says all of it of the runs that are made for its numbers.
pub fn a_study_is_the_headline()
    ensures { AStudyIsTheHeadline }
{
    one_made_run();
}
