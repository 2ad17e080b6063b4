ghost use Rattle.std.specs.Prelude.{◌≡◌, IfOk};
ghost use Rattle.collector.specs.Sites.{branches_of, is_branch};
ghost use Rattle.elimination.specs.Elimination.{IsElimination};
ghost use Rattle.elimination_tallies.specs.Recount.{run_of_report, runs_of};

use crate::listing::eliminate;
use cbi_base::{Memory, Policy, Seq};
use collector::Collection;
use elimination_tallies::{LabelledRun, Listed};
use flow::{Site, SiteKind, SiteTable};
use report_file::Report;
use std::alloc::Global;

fn is_branch(site: &Site) -> bool
    ensures { result ≡ is_branch site.now }
{
    match site.kind {
        SiteKind::Branch { .. } => true,
        SiteKind::Return { .. } | SiteKind::Pair { .. } => false,
    }
}

/// Which of the sites are branches.
pub fn branches_of(alloc: Global, sites: &[Site]) -> Result<Vec<bool>, Memory>
    ensures { IfOk result (λ branches. branches.items ≡ branches_of sites.now) }
{
    let mut branches = Vec::new(alloc);
    for site in sites {
        branches.push(is_branch(site))?;
    }
    Ok(branches)
}

// The label of a report, and what it observed.
fn labelled(alloc: Global, report: &Report) -> Result<LabelledRun, Memory>
    ensures { IfOk result (λ run. run ≡ run_of_report report.now) }
{
    let entries = Vec::from_slice(alloc, report.entries.as_slice())?;
    Ok(LabelledRun {
        label: report.label,
        entries: Seq::from_vec(entries),
    })
}

/// The runs of a collection, with their labels.
pub fn runs_of(alloc: Global, collection: &Collection) -> Result<Vec<LabelledRun>, Memory>
    ensures { IfOk result (λ runs. runs.items ≡ runs_of collection.now.reports) }
{
    collection.keeps();
    let mut runs = Vec::new(alloc);
    let mut last = 0;
    while let Some(report) = collection.next_report(last) {
        runs.push(labelled(alloc, report)?)?;
        last = report.run;
    }
    Ok(runs)
}

/// The elimination of a collection's runs, as `elimination::elimination` has it.
pub fn plain_elimination(
    alloc: Global,
    collection: &Collection,
    table: &SiteTable,
    policy: Policy,
) -> Result<Seq<Listed>, Memory>
    requires { collection.now.branches ≡ branches_of table.now.sites }
    ensures { IfOk result (IsElimination collection.now.branches policy (runs_of collection.now.reports)) }
{
    let _held = collection.reports_held();
    let branches = branches_of(alloc, table.sites())?;
    let runs = runs_of(alloc, collection)?;
    eliminate(alloc, branches.as_slice(), runs, policy)
}
