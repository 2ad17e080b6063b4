ghost use Rattle.std.specs.Prelude.{◌≡◌, IfOk};
ghost use Rattle.collector.specs.Sites.{branches_of};
ghost use Rattle.elimination_tallies.specs.Recount.{runs_of};
ghost use Rattle.ranking.specs.Ranked.{IsRankingOf};

use crate::laws::eliminations_are_rows;
use crate::ranking::ranking_text;
use cbi_base::{Memory, Policy};
use collector::Collection;
use elimination::elimination;
use flow::SiteTable;
use std::alloc::Global;

/// The text of the leaders of the collection's runs, over the sites of the table and under the policy.
pub fn ranking_of(
    alloc: Global,
    collection: &Collection,
    table: &SiteTable,
    policy: Policy,
) -> Result<Vec<u8>, Memory>
    requires { collection.now.branches ≡ branches_of table.now.sites }
    ensures { IfOk result (λ text. IsRankingOf table.now policy (runs_of collection.now.reports) text.items) }
{
    let _runs = collection.reports_held();
    let rows = elimination(alloc, collection, table, policy)?;
    eliminations_are_rows();
    ranking_text(alloc, rows.as_slice(), table)
}
