ghost use Rattle.std.specs.Prelude.{◌≡◌, ◌<◌, IfOk};
ghost use Rattle.collector.specs.Sites.{branches_of};
ghost use Rattle.flow.specs.Predicates.{predicate_count};
ghost use Rattle.elimination_tallies.specs.Recount.{runs_of};
ghost use Rattle.elimination_tallies.specs.Tallies.{AreRecounts};
ghost use Rattle.affinity.specs.Near.{AreNear};

use crate::comparing::nearest;
use crate::neighbour::Neighbour;
use crate::remaining::without;
use cbi_base::Memory;
use collector::Collection;
use elimination::predicates_are_those_of_the_table;
use elimination_tallies::Numbers;
use flow::SiteTable;
use std::alloc::Global;

/// Those near a predicate, by the numbers over all runs of the collection.
pub fn near_by(
    alloc: Global,
    collection: &Collection,
    whole: &Numbers,
    predicate: u32,
) -> Result<Vec<Neighbour>, Memory>
    requires { AreRecounts collection.now.branches (runs_of collection.now.reports) whole.now }
    ensures { IfOk result (λ rows. AreNear collection.now.branches (runs_of collection.now.reports) predicate rows.items) }
{
    let _held = collection.reports_held();
    let left = without(alloc, collection, whole, predicate)?;
    let rows = nearest(alloc, predicate, whole, &left)?;
    Ok(rows)
}

/// The predicates near one of the table over the runs of the collection: at most five whose importance falls most without the runs in which it was true. Each
/// of them passes; the one that falls most comes first, the smaller number first among equals.
pub fn near(
    alloc: Global,
    collection: &Collection,
    table: &SiteTable,
    predicate: u32,
) -> Result<Vec<Neighbour>, Memory>
    requires table { collection.now.branches ≡ branches_of table.now.sites }
    requires predicate { predicate < predicate_count table.now.sites }
    ensures { IfOk result (λ rows. AreNear (branches_of table.now.sites) (runs_of collection.now.reports) predicate rows.items) }
{
    let whole = Numbers::of(alloc, collection, table)?;
    let rows = near_by(alloc, collection, &whole, predicate)?;
    Ok(rows)
}
