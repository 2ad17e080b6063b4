ghost use Rattle.std.specs.Prelude.{◌≡◌, IfErr, OnOk};
ghost use Rattle.flow.specs.Sites.{PartFits};
ghost use Rattle.collector.specs.Sites.{branches_of, first_bad, has_site};
ghost use Rattle.command_base.specs.Faults.{HasCause, Precedes};
ghost use Rattle.command_inputs.specs.Runs.{HaveSites};
ghost use Rattle.command_widen.specs.Loading.{AreSpelled, RefusesSites};
ghost use Rattle.command_widen.specs.Widen.{RefusesTexts, SpellPart};

use crate::loaded::Loaded;
use crate::texts::WidenTexts;
use cbi_base::Refusal;
use command_base::Fault;
use flow::{Part, Site, SiteKind};
use program_file::program_id;
use program_parts::is_part;
use report_file::{Entry, Report};

// Whether the entry's site is one of these, and has no third counter at a branch.
fn has_site(sites: &[Site], entry: Entry) -> bool
    ensures { result ≡ has_site (branches_of sites.now) entry }
{
    match sites.get(entry.site as usize) {
        None => false,
        Some(site) => match site.kind {
            SiteKind::Branch { .. } => entry.counts.third == 0,
            SiteKind::Return { .. } | SiteKind::Pair { .. } => true,
        },
    }
}

// The first site in the entries that isn't one of these, or has a third counter at a branch.
fn first_bad(sites: &[Site], entries: &[Entry]) -> Option<u32>
    ensures { result ≡ first_bad (branches_of sites.now) entries.now }
{
    let mut rest = entries;
    while let [entry, after @ ..] = rest {
        if !has_site(sites, *entry) {
            return Some(entry.site);
        }
        rest = after;
    }
    None
}

// Refused by the first report that has an entry of a site that isn't there, and by the first such site of it.
fn check_sites(sites: &[Site], reports: &[Report]) -> Result<(), Fault>
    ensures there { OnOk result (HaveSites (branches_of sites.now) reports.now) }
    ensures fault { IfErr result (λ e. HasCause e (λ n. ⊥) ⊥ (RefusesSites (branches_of sites.now) reports.now)) }
    ensures precedes { IfErr result Precedes }
{
    let mut rest = reports;
    while let [report, after @ ..] = rest {
        if let Some(site) = first_bad(sites, report.entries.as_slice()) {
            let run = report.run;
            let refusal = Refusal::NoSite { run, site };
            return Err(Fault::Refused { refusal });
        }
        rest = after;
    }
    Ok(())
}

/// Whether the one program has this part of the sites of the other, and the reports are of its runs.
pub fn check_loaded(texts: &WidenTexts, loaded: &Loaded, part: Part) -> Result<(), Fault>
    requires part { PartFits part }
    requires spelled { AreSpelled texts.now loaded.now }
    ensures spell { OnOk result (SpellPart part texts.now loaded.now.whole loaded.now.program loaded.now.bundle) }
    ensures fault { IfErr result (λ e. HasCause e (λ n. ⊥) ⊥ (λ r. RefusesTexts part r texts.now)) }
    ensures precedes { IfErr result Precedes }
{
    if !is_part(loaded.whole.table(), loaded.program.table(), part) {
        let refusal = Refusal::NotPart;
        return Err(Fault::Refused { refusal });
    }
    let ours = program_id(texts.runs.program.as_slice());
    let theirs = loaded.bundle.program;
    if theirs != ours {
        let refusal = Refusal::Foreign { ours, theirs };
        return Err(Fault::Refused { refusal });
    }
    check_sites(
        loaded.program.table().sites(),
        loaded.bundle.reports.as_slice(),
    )
}
