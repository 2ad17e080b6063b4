//! Laws of `runs` beside the other commands, each on a function that does nothing but call on the laws below it.
ghost use Rattle.headline.specs.Listed.{
  BanksAreWritten,
  RunsAreTheirCalls,
  RunsHaveTheirCalls,
  TheRankingOfRunsIsTheElimination,
};

use crate::laws::a_ranking_of_runs_is_the_elimination;
use collector::{one_collection, order_does_not_matter, written_collection};
use countdown_bank::one_bank;
use flow::one_ending;
use program_file::one_program;
use report_file::one_report;
use std::alloc::Global;

/// What `runs` does is what its calls do: it writes what `collect` writes of the reports that `run` leaves of each line, with the bank that `bank` writes
/// for the run's number; and whatever it did has such calls.
pub fn runs_are_their_calls(alloc: Global)
    ensures calls { RunsAreTheirCalls }
    ensures banks { BanksAreWritten }
    ensures each { RunsHaveTheirCalls }
{
    one_report();
    one_collection(alloc);
    written_collection();
    order_does_not_matter();
    one_ending();
    one_program(alloc);
    one_bank();
}

/// The headline of `runs`: what `rank` writes of the runs that it makes of a file that `transform` wrote is the elimination of these runs as the text
/// means them. (That the other commands say the same of them, and of several such lots collected together, is `the_commands_are_the_headline` and its
/// likes: what `runs` writes is a collection as they take them.)
pub fn the_ranking_of_runs_is_the_elimination(alloc: Global)
    ensures { TheRankingOfRunsIsTheElimination }
{
    a_ranking_of_runs_is_the_elimination(alloc);
    one_collection(alloc);
    written_collection();
}
