ghost use Rattle.std.specs.Prelude.{◌≡◌, ◌<◌, ◌≤◌, length, IfOk};
ghost use Rattle.collector.specs.Sites.{branches_of};
ghost use Rattle.flow.specs.Predicates.{predicate_count};
ghost use Rattle.elimination_tallies.specs.Predicates.{predicates_in};
ghost use Rattle.elimination_tallies.specs.Recount.{runs_of};
ghost use Rattle.affinity.specs.Falls.{scores_over};
ghost use Rattle.affinity.specs.Near.{AreNear, AreNearBy};

use crate::choosing::next_behind;
use affinity::Neighbour;
use cbi_base::{Memory, Policy};
use collector::Collection;
use elimination_reference::{branches_of, runs_of, step};
use elimination_tallies::LabelledRun;
use flow::SiteTable;
use std::alloc::Global;

// One after another the next of the neighbours, five at most.
fn first_five(
    alloc: Global,
    branches: &[bool],
    runs: &[LabelledRun],
    left: &[LabelledRun],
    predicate: u32,
) -> Result<Vec<Neighbour>, Memory>
    requires sites { length branches.now ≤ 65536 }
    requires runs { length runs.now ≤ 100000 }
    requires left { length left.now ≤ 100000 }
    ensures { IfOk result (λ rows. AreNearBy (predicates_in branches.now) predicate (scores_over branches.now runs.now)
        (scores_over branches.now left.now) rows.items) }
{
    let mut rows = Vec::new(alloc);
    for _place in 0..5u32 {
        let Some(next) = next_behind(branches, runs, left, predicate, rows.as_slice()) else {
            return Ok(rows);
        };
        rows.push(next)?;
    }
    Ok(rows)
}

/// The predicates near one of the table over the runs of the collection, as `affinity::near` has them.
pub fn plain_near(
    alloc: Global,
    collection: &Collection,
    table: &SiteTable,
    predicate: u32,
) -> Result<Vec<Neighbour>, Memory>
    requires table { collection.now.branches ≡ branches_of table.now.sites }
    requires predicate { predicate < predicate_count table.now.sites }
    ensures { IfOk result (λ rows. AreNear (branches_of table.now.sites) (runs_of collection.now.reports) predicate rows.items) }
{
    let _held = collection.reports_held();
    let branches = branches_of(alloc, table.sites())?;
    let runs = runs_of(alloc, collection)?;
    let mut left = runs_of(alloc, collection)?;
    step(branches.as_slice(), Policy::All, predicate, &mut left);
    let rows = first_five(
        alloc,
        branches.as_slice(),
        runs.as_slice(),
        left.as_slice(),
        predicate,
    )?;
    Ok(rows)
}
