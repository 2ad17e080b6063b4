ghost use Rattle.std.specs.Prelude.{◌≡◌, IfOk};
ghost use Rattle.collector.specs.Sites.{branches_of};
ghost use Rattle.elimination_tallies.specs.Recount.{runs_of};
ghost use Rattle.suspicious_lines.specs.Suspects.{suspects_of};
ghost use Rattle.suspicious_lines.specs.Text.{AreLinesOf};

use crate::listing::listed;
use crate::places::place_count;
use crate::suspects::suspects_by;
use crate::text::suspicious_text;
use crate::totals::totals_of;
use association::Suspect;
use cbi_base::Memory;
use collector::Collection;
use elimination::predicates_are_those_of_the_table;
use elimination_tallies::Numbers;
use flow::SiteTable;
use std::alloc::Global;

// The suspects of the collection's runs.
fn suspects(
    alloc: Global,
    collection: &Collection,
    table: &SiteTable,
) -> Result<Vec<Suspect>, Memory>
    requires { collection.now.branches ≡ branches_of table.now.sites }
    ensures { IfOk result (λ suspects. suspects.items ≡ suspects_of table.now (runs_of collection.now.reports)) }
{
    predicates_are_those_of_the_table();
    let numbers = Numbers::of(alloc, collection, table)?;
    let suspects = suspects_by(alloc, &numbers, table)?;
    Ok(suspects)
}

/// The text of at most so many suspicious lines by the runs of the collection, over the sites of the table. A line is left out where one of its function,
/// at most so many lines apart, stands before it.
pub fn lines_of(
    alloc: Global,
    collection: &Collection,
    table: &SiteTable,
    most: u32,
    apart: u32,
) -> Result<Vec<u8>, Memory>
    requires { collection.now.branches ≡ branches_of table.now.sites }
    ensures { IfOk result (λ text. AreLinesOf table.now (runs_of collection.now.reports) most apart text.items) }
{
    let _held = collection.reports_held();
    let _sites = table.sites();
    let totals = totals_of(collection);
    let suspects = suspects(alloc, collection, table)?;
    let places = place_count(alloc, suspects.as_slice())?;
    let rows = listed(alloc, totals, apart, u64::from(most), suspects)?;
    let text = suspicious_text(alloc, table, totals, places as u64, rows.as_slice())?;
    Ok(text)
}
