ghost use Rattle.std.specs.Prelude.{◌≡◌, ◌≤◌, IfOk};
ghost use Rattle.collector.specs.Sites.{branches_of};
ghost use Rattle.bug_rounds.specs.Text.{AreBugsOf};

use crate::search::bugs_by;
use crate::text::bugs_text;
use cbi_base::Memory;
use collector::Collection;
use flow::SiteTable;
use std::alloc::Global;
use std::marker::Brand;
use std::sync::ledger::Blank;
use suspicious_lines::totals_of;

/// The text of at most so many bugs by the runs of the collection, over the sites of the table: each with at most so many places of its round, the leader's own
/// among them.
pub fn bugs_of(
    alloc: Global,
    collection: &Collection,
    table: &SiteTable,
    most: u32,
    also: u32,
) -> Result<Vec<u8>, Memory>
    requires table { collection.now.branches ≡ branches_of table.now.sites }
    requires also { 1 ≤ also }
    ensures { IfOk result (λ text. AreBugsOf table.now collection.now.reports most also text.items) }
{
    let _held = collection.reports_held();
    let _sites = table.sites();
    let totals = totals_of(collection);
    let found = bugs_by::<Brand>(
        alloc,
        collection,
        table,
        totals.successful,
        most,
        also,
        Blank::new(1),
    )?;
    let text = bugs_text(alloc, table, totals, &found)?;
    Ok(text)
}
