ghost use Rattle.std.specs.Prelude.{◌≡◌, ◌≤◌, map};
ghost use Rattle.flow.specs.Sites.{PartFits};
ghost use Rattle.report_file.specs.Report.{greatest_site};
ghost use Rattle.collector.specs.Merging.{IsBundle};
ghost use Rattle.collector.specs.Spelling.{IsText};
ghost use Rattle.program_parts.specs.Part.{whole_number};
ghost use Rattle.site_parts.specs.Widened.{MayWiden, MayWidenAll, widened_entries, widened_bundle, widened_entry, widened_report};

use cbi_base::{ProgramId, Seq};
use collector::Bundle;
use flow::Part;
use report_file::{Entry, Report};
use std::alloc::Global;
use std::mem;

fn widened_entry(entry: Entry, part: Part) -> Entry
    requires { whole_number part entry.site ≤ greatest_site }
    ensures { result ≡ widened_entry part entry }
{
    Entry {
        site: entry.site * part.count + part.index,
        counts: entry.counts,
    }
}

fn widen_entries(entries: &mut [Entry], part: Part)
    requires { MayWiden part entries.old }
    ensures { entries.new ≡ widened_entries part entries.old }
{
    let mut place = 0;
    while place < entries.len() {
        entries[place] = widened_entry(entries[place], part);
        place += 1;
    }
}

fn widen_report(alloc: Global, report: &mut Report, whole: ProgramId, part: Part)
    requires { MayWiden part report.old.entries }
    ensures { report.new ≡ widened_report whole part report.old }
{
    let mut entries = mem::replace(&mut report.entries, Seq::new(alloc)).into_vec();
    widen_entries(&mut entries, part);
    report.program = whole;
    report.entries = Seq::from_vec(entries);
}

fn widen_reports(alloc: Global, reports: &mut [Report], whole: ProgramId, part: Part)
    requires { MayWidenAll part reports.old }
    ensures { reports.new ≡ map (widened_report whole part) reports.old }
{
    let mut place = 0;
    while place < reports.len() {
        widen_report(alloc, &mut reports[place], whole, part);
        place += 1;
    }
}

/// The reports of a part's program as reports of the whole program: under its identity, and each site under its number there. It is done in
/// place and takes no memory.
pub fn widen(bundle: Bundle, whole: ProgramId, part: Part) -> Bundle
    requires part { PartFits part }
    requires sites { MayWidenAll part bundle.reports }
    ensures value { result ≡ widened_bundle whole part bundle }
    // What could be spelled and merged still can.
    ensures is_text { IsText bundle → IsText result }
    ensures is_bundle { IsBundle bundle → IsBundle result }
{
    let mut reports = bundle.reports.into_vec();
    let alloc = *reports.allocator();
    widen_reports(alloc, &mut reports, whole, part);
    Bundle {
        program: whole,
        reports: Seq::from_vec(reports),
    }
}
