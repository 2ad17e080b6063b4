//! Laws of the definitions, each on a function of its own that does nothing but call on the laws below it.
ghost use Rattle.headline.specs.Laws.{
  ARankingOfRunsIsTheElimination,
  AStudyIsItsChain,
  AWidenedCollectionIsOfTheWhole,
  WrittenProgramsRunAsTheTextMeans,
};

use crate::headline::collections_hold_their_runs;
use compiler::one_accepted_text;
use elimination::one_elimination;
use flow::one_ending;
use program_file::one_program;
use site_parts::{fitting_reports_may_widen, widened_reports_fit};
use std::alloc::Global;
use study_runs::one_made_run;

/// A program that `transform` wrote runs as its text means: it ends, traps or is cut so, with that output, and its counters count exactly the truths
/// of the visits that it looks at.
pub fn written_programs_run_as_the_text_means(alloc: Global)
    ensures { WrittenProgramsRunAsTheTextMeans }
{
    one_program(alloc);
    one_ending();
    one_accepted_text();
}

/// A ranking of runs of such a program is the elimination, each round recounted over the runs that are left, of these runs as the text means them.
pub fn a_ranking_of_runs_is_the_elimination(alloc: Global)
    ensures { ARankingOfRunsIsTheElimination }
{
    one_program(alloc);
    one_ending();
    one_accepted_text();
}

/// The ranking of a study is that of the chain of commands on the banks and inputs that are made for its numbers: their reports are collected, in any
/// order, grouping, repetition and depth, and the collection is ranked.
pub fn a_study_is_its_chain(alloc: Global)
    ensures { AStudyIsItsChain }
{
    collections_hold_their_runs(alloc);
    a_ranking_of_runs_is_the_elimination(alloc);
    one_accepted_text();
    one_made_run();
    one_elimination();
}

/// What `widen` writes of the reports of a part's program is a collection of runs of the whole program, and so each command that reads one takes it.
pub fn a_widened_collection_is_of_the_whole()
    ensures { AWidenedCollectionIsOfTheWhole }
{
    widened_reports_fit();
    fitting_reports_may_widen();
}
