//! Laws of what no command on the way refuses, each on a function that does nothing but call on the laws below it.
ghost use Rattle.headline.specs.Unrefused.{
  NoCollectionIsRefused,
  NoRankingIsRefused,
  NoRunIsRefused,
  NoWideningIsRefused,
};
ghost use Rattle.headline.specs.UnrefusedRuns.{NoRunsAreRefused};
ghost use Rattle.headline.specs.UnrefusedSession.{NoSessionIsRefused};

use collector::{
    groups_do_not_matter, one_collection, order_does_not_matter, reports_are_taken_whole,
    written_collection,
};
use compiler::one_accepted_text;
use countdown_bank::one_bank;
use flow::one_ending;
use machine_laws::reports_of_runs_are_taken;
use program_file::one_program;
use report_file::{one_report, written_report};
use std::alloc::Global;

/// Nothing on the way is refused: not a run of a file that `transform` wrote, with a bank's text and an input that fits; not the texts that `run` and
/// `collect` left of runs of such a file, where runs of one number are one run and the limits of collections hold for them, each counted once; and not
/// such a collection beside its file, for `rank`, `cards`, `pairs`, `lines` and `bugs`, whose refusals are one and the same; nor such a collection of a
/// share's program beside that one and the program of all sites, for `widen`.
///
/// So by the clause `complete` of the top call, where the words read as such a command (`usage_only`), the names are held and the store and out are
/// sound (`reads_stay`, `writes_stay`, `out_stays`), its status is 0 or 7.
pub fn nothing_on_the_way_is_refused(alloc: Global)
    ensures runs { NoRunIsRefused }
    ensures collections { NoCollectionIsRefused }
    ensures rankings { NoRankingIsRefused }
    ensures widenings { NoWideningIsRefused }
{
    one_program(alloc);
    one_ending();
    one_accepted_text();
    one_bank();
    one_report();
    written_report();
    one_collection(alloc);
    written_collection();
    reports_are_taken_whole();
    order_does_not_matter();
    groups_do_not_matter();
    reports_of_runs_are_taken();
}

/// No session is refused: over a file that `transform` wrote, with a text of edits that add the reports of texts which `run`, `runs` and `collect` left of
/// that file, where runs of one number are one run and the limits of collections hold for all of them, that remove only runs that are held, and that ask
/// for rankings. (Of edits that relabel a run it says nothing.)
pub fn no_session_is_refused(alloc: Global)
    ensures { NoSessionIsRefused }
{
    one_program(alloc);
    one_ending();
    one_accepted_text();
    one_bank();
    one_report();
    one_collection(alloc);
    written_collection();
    order_does_not_matter();
    reports_of_runs_are_taken();
    session_edits::one_list(alloc);
}

/// No runs on the lines of lists are refused: of a file that `transform` wrote, with a list of names of inputs of at most 16,777,216 bytes each, one of as
/// many names of expected outputs where it is given, and at most 16,777,216 site lines in the reports of the calls for the lines.
pub fn no_runs_are_refused(alloc: Global)
    ensures { NoRunsAreRefused }
{
    one_program(alloc);
    one_ending();
    one_accepted_text();
    name_lists::one_list();
}
