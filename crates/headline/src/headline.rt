//! The headline and its likes, each on a function of its own that does nothing but call on the laws below it.
ghost use Rattle.headline.specs.Headline.{
  ASessionIsTheHeadline,
  ASessionOfACollectionIsTheHeadline,
  BugsAreOfMeantRuns,
  CardsAreOfMeantRuns,
  CollectionsHoldTheirRuns,
  LinesAreOfMeantRuns,
  PairsAreOfMeantRuns,
  TheCommandsAreTheHeadline,
};

use crate::laws::a_ranking_of_runs_is_the_elimination;
use collector::{one_collection, order_does_not_matter, written_collection};
use compiler::one_accepted_text;
use flow::one_ending;
use program_file::one_program;
use report_file::one_report;
use session_edits::one_list;
use session_replay::additions_print_their_map;
use std::alloc::Global;

/// The headline. A C text is transformed to a file, the file is run, the reports are collected, and the collection is ranked: what is written is the
/// elimination of these runs as the text means them.
pub fn the_commands_are_the_headline(alloc: Global)
    ensures { TheCommandsAreTheHeadline }
{
    collections_hold_their_runs(alloc);
    a_ranking_of_runs_is_the_elimination(alloc);
}

/// Whatever was collected, in whatever order, grouping, repetition and depth, a collection holds the reports of its runs.
pub fn collections_hold_their_runs(alloc: Global)
    ensures { CollectionsHoldTheirRuns }
{
    one_report();
    one_collection(alloc);
    written_collection();
    order_does_not_matter();
}

/// The cards of a collection are those of its runs as the text means them.
pub fn cards_are_of_meant_runs(alloc: Global)
    ensures { CardsAreOfMeantRuns }
{
    collections_hold_their_runs(alloc);
    one_program(alloc);
    one_ending();
    one_accepted_text();
}

/// The best pair of a collection is that of its runs as the text means them.
pub fn pairs_are_of_meant_runs(alloc: Global)
    ensures { PairsAreOfMeantRuns }
{
    collections_hold_their_runs(alloc);
    one_program(alloc);
    one_ending();
    one_accepted_text();
}

/// The suspicious lines of a collection are those of its runs as the text means them.
pub fn lines_are_of_meant_runs(alloc: Global)
    ensures { LinesAreOfMeantRuns }
{
    collections_hold_their_runs(alloc);
    one_program(alloc);
    one_ending();
    one_accepted_text();
}

/// The bugs of a collection are those of its runs as the text means them.
pub fn bugs_are_of_meant_runs(alloc: Global)
    ensures { BugsAreOfMeantRuns }
{
    collections_hold_their_runs(alloc);
    one_program(alloc);
    one_ending();
    one_accepted_text();
}

/// A session that adds the reports of texts that were left, or those of a collection, and then ranks them prints the ranking of these runs as the text
/// means them.
pub fn a_session_is_the_headline(alloc: Global)
    ensures texts { ASessionIsTheHeadline }
    ensures collection { ASessionOfACollectionIsTheHeadline }
{
    collections_hold_their_runs(alloc);
    one_program(alloc);
    one_ending();
    one_accepted_text();
    one_list(alloc);
    additions_print_their_map();
    one_report();
    one_collection(alloc);
    written_collection();
    order_does_not_matter();
}
