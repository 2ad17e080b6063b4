ghost use Rattle.std.specs.Prelude.{◌≡◌, IfOk};
ghost use Rattle.collector.specs.Sites.{branches_of};
ghost use Rattle.elimination_tallies.specs.Recount.{runs_of};
ghost use Rattle.compound.specs.Found.{IsFound};
ghost use Rattle.compound.specs.Text.{HasText};

use crate::chosen::PairResult;
use crate::listing::candidates;
use crate::scanning::scan_pairs;
use cbi_base::Memory;
use collector::Collection;
use elimination::{TallyTable, predicates_are_those_of_the_table};
use flow::SiteTable;
use std::alloc::Global;

/// The best pair of predicates over the runs of the collection, and how many pairs of candidates were counted and skipped to find it. There is none exactly
/// where no pair passes.
pub fn best_pair(
    alloc: Global,
    collection: &Collection,
    table: &SiteTable,
) -> Result<PairResult, Memory>
    requires { collection.now.branches ≡ branches_of table.now.sites }
    ensures found { IfOk result (IsFound (branches_of table.now.sites) (runs_of collection.now.reports)) }
    ensures text { IfOk result (HasText table.now) }
{
    let _held = collection.reports_held();
    predicates_are_those_of_the_table();
    let tallies = TallyTable::new(alloc, collection, table)?;
    let listed = candidates(alloc, collection, &tallies)?;
    let found = scan_pairs(alloc, collection, table, &tallies, listed.as_slice())?;
    Ok(found)
}
