//! A law of farms, on a function that does nothing but call on the laws below it.
ghost use Rattle.headline.specs.Farm.{AFarmIsTheElimination};

use crate::laws::a_widened_collection_is_of_the_whole;
use collector::{one_collection, order_does_not_matter, written_collection};
use compiler::one_accepted_text;
use flow::one_ending;
use program_file::one_program;
use program_parts::parts_have_their_sites;
use report_file::one_report;
use std::alloc::Global;

/// A farm: each machine runs the program of a part of the sites, and its collection is widened. What `rank` writes of these, collected for the program
/// of all sites in any order, grouping, repetition and depth, is the elimination of all runs, each observed at its part's sites.
pub fn a_farm_is_the_elimination(alloc: Global)
    ensures { AFarmIsTheElimination }
{
    one_program(alloc);
    one_ending();
    one_accepted_text();
    one_report();
    one_collection(alloc);
    written_collection();
    order_does_not_matter();
    a_widened_collection_is_of_the_whole();
    parts_have_their_sites();
}
