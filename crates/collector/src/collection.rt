ghost use Rattle.std.specs.Prelude.{◌≡◌, ◌↔◌, false, is_some, ◌+◌, ◌<◌, ◌≤◌, [], length, IfOk, IfSome, map, None, OnErr, OnOk, IsTrue};
ghost use Rattle.std.specs.Option.{option_copied};
ghost use Rattle.std.specs.List.{flat_map};
ghost use Rattle.cbi_base.specs.Words.{IsId, line_of_fields, text_of};
ghost use Rattle.collector.specs.Collecting.{IsCollection};
ghost use Rattle.collector.specs.Merging.{IsBundle, Merges};
ghost use Rattle.collector.specs.Spelling.{collection_text};
ghost use Rattle.report_file.specs.RunLine.{line_rows};
ghost use Rattle.collector.specs.Collected.{Adds, IsOfCollection, mark_limit, marks_of, next_after, report_relabelled, report_at, report_limit, with_report};
ghost use Rattle.collector.specs.Collected.{without_report};
ghost use Rattle.collector.specs.Sites.{branches_of, first_bad};
ghost use Rattle.report_file.specs.Report.{IsReport};

use crate::answers::{AddFault, Added, Merged};
use crate::sites::{branches_of, first_bad};
use cbi_base::{Memory, ProgramId, Seq, id_text};
use flow::SiteTable;
use report_file::{Label, Report, report_lines};
use std::alloc::Global;
use std::collections::BTreeMap;
use std::marker::Model;
use std::ops::Bound;

/// The most reports that a collection holds.
const MOST_REPORTS: usize = 100000;

/// The most entries of all reports together.
const MOST_MARKS: usize = 16777216;

/// Reports of one program, in the order in which they stand in a text.
#[derive(Debug, Drop)]
pub struct Bundle {
    pub program: ProgramId,
    pub reports: Seq<Report>,
}

/// What a collection holds: its program's identity, which sites are branches, and the reports, by rising run.
#[derive(Debug, Drop)]
pub struct Held {
    pub program: ProgramId,
    pub branches: Seq<bool>,
    pub reports: Seq<Report>,
}

/// Reports of one program, each under its own run. Contracts see it as what it holds.
#[derive(Drop)]
pub struct Collection {
    program: ProgramId,
    branches: Seq<bool>,
    reports: BTreeMap<u32, Report>,
    marks: usize,
}

impl Model for Collection {
    ghost use Rattle.std.specs.Prelude.{◌≡◌, ◌≤◌, map};
    ghost use Rattle.std.specs.BTreeMap.{values};
    ghost use Rattle.collector.specs.declared.collection.Held.{Held};
    ghost use Rattle.collector.specs.Kept.{IsCollectionKept};

    ghost Value = { Held };

    ghost view = { λ c. record { program = c.program; branches = c.branches; reports = values c.reports } };

    ghost invariant = { λ c. IsCollectionKept c.program c.branches c.reports.entries c.marks };
}

/// What the type of an identity says of it.
pub fn is_identity(program: ProgramId)
    ensures { IsId program }
{
    let _program = program;
}

impl Collection {
    /// No reports of the program with this table.
    pub fn new(alloc: Global, program: ProgramId, table: &SiteTable) -> Result<Collection, Memory>
        ensures { IfOk result (λ c. c ≡ record { program = program; branches = branches_of table.now.sites; reports = [] }) }
    {
        Ok(Collection {
            program,
            branches: branches_of(alloc, table.sites())?,
            reports: BTreeMap::new(alloc),
            marks: 0,
        })
    }

    /// The number of reports held.
    pub fn reports_held(&self) -> u32
        ensures value { result ≡ length self.now.reports }
        ensures most { result ≤ 100000 }
    {
        self.reports.len() as u32
    }

    /// What a collection keeps: the runs rise, each report can be spelled and is of the program and its sites, and the limits hold.
    pub fn keeps(&self)
        ensures { IsCollection self.now }
    {
        let _count = self.reports.len();
        is_identity(self.program);
    }

    /// Adds a report. It is of the program and its sites, or else refused; then nothing more is held.
    pub fn add(&mut self, report: Report) -> Result<Added, AddFault>
        requires { IsReport report }
        ensures adds { Adds self.old report result self.new }
        ensures err { OnErr result (self.new ≡ self.old) }
    {
        let run = report.run;
        if !self.is_of(&report.program) {
            return Err(AddFault::Foreign {
                ours: self.identity(),
                theirs: report.program,
            });
        }
        if let Some(site) = self.first_bad(&report) {
            return Err(AddFault::NoSite { run, site });
        }
        if let Some(held) = self.held(run) {
            if held.same(&report) {
                return Ok(Added::Repeated);
            }
            return Err(AddFault::Conflict { run });
        }
        if self.count() >= MOST_REPORTS {
            return Err(AddFault::TooManyReports { run });
        }
        if self.marks() + report.entries.len() > MOST_MARKS {
            return Err(AddFault::TooManyMarks { run });
        }
        match self.put(report) {
            Ok(()) => Ok(Added::New),
            Err(Memory) => Err(AddFault::Memory),
        }
    }

    /// Takes the report of a run away; false exactly where the run isn't held.
    pub fn remove(&mut self, run: u32) -> bool
        ensures found { result ≡ is_some (report_at run self.old.reports) }
        ensures after { self.new ≡ record self.old { reports = without_report run self.old.reports } }
        ensures absent { result ≡ false → self.new ≡ self.old }
    {
        let Some(report) = self.reports.remove(&run) else {
            return false;
        };
        self.marks -= report.entries.len();
        true
    }

    /// Gives the report of a run another label; false exactly where the run isn't held.
    pub fn relabel(&mut self, run: u32, label: Label) -> bool
        ensures found { result ≡ is_some (report_at run self.old.reports) }
        ensures after { self.new ≡ record self.old { reports = report_relabelled run label self.old.reports } }
        ensures absent { result ≡ false → self.new ≡ self.old }
    {
        let Some(report) = self.reports.get_mut(&run) else {
            return false;
        };
        report.label = label;
        true
    }

    /// The report with the least run above this one; None exactly where no run above it is held.
    pub fn next_report(&self, after: u32) -> Option<&Report>
        ensures value { option_copied result ≡ next_after after self.now.reports }
        // It can be spelled, and is of the program and its sites.
        ensures is_report { IfSome result (λ r. IsReport r.now) }
        ensures ours { IfSome result (λ r. IsOfCollection self.now r.now) }
    {
        let above = (Bound::Excluded(after), Bound::Unbounded);
        match self.reports.range(above).next() {
            None => None,
            Some((_, report)) => Some(report),
        }
    }

    /// Adds the reports of a bundle, in their order. After a fault those before the faulty one are held.
    pub fn merge(&mut self, bundle: Bundle) -> Result<Merged, AddFault>
        requires { IsBundle bundle }
        ensures { Merges self.old bundle result self.new }
    {
        let Bundle { program, reports } = bundle;
        if !self.is_of(&program) {
            return Err(AddFault::Foreign {
                ours: self.identity(),
                theirs: program,
            });
        }
        let mut rest = reports.into_vec();
        rest.reverse();
        let mut added = 0u32;
        let mut repeated = 0u32;
        while let Some(report) = rest.pop() {
            match self.add(report) {
                Ok(Added::New) => {
                    added += 1;
                    continue;
                }
                Ok(Added::Repeated) => {
                    repeated += 1;
                    continue;
                }
                Err(fault) => return Err(fault),
            }
        }
        Ok(Merged { added, repeated })
    }

    // The lines of all reports.
    fn report_texts(&self, alloc: Global) -> Result<Vec<u8>, Memory>
        ensures { IfOk result (λ text. text.items ≡ text_of (map line_of_fields (flat_map line_rows self.now.reports))) }
    {
        let mut out = Vec::new(alloc);
        for report in self.reports.values() {
            let lines = report_lines(alloc, report)?;
            out.extend_from_slice(lines.as_slice())?;
        }
        Ok(out)
    }

    fn identity(&self) -> ProgramId
        ensures { result ≡ self.now.program }
    {
        self.program
    }

    // Whether the program is this collection's.
    fn is_of(&self, program: &ProgramId) -> bool
        ensures { IsTrue result ↔ (program.now ≡ self.now.program) }
    {
        *program == self.program
    }

    // The first site of the report that the program hasn't, or at which it has a third counter at a branch.
    fn first_bad(&self, report: &Report) -> Option<u32>
        ensures { result ≡ first_bad self.now.branches report.now.entries }
    {
        first_bad(self.branches.as_slice(), report.entries.as_slice())
    }

    // The report of a run.
    fn held(&self, run: u32) -> Option<&Report>
        ensures { option_copied result ≡ report_at run self.now.reports }
    {
        self.reports.get(&run)
    }

    fn count(&self) -> usize
        ensures { result ≡ length self.now.reports }
    {
        self.reports.len()
    }

    fn marks(&self) -> usize
        ensures value { result ≡ marks_of self.now.reports }
        ensures most { result ≤ mark_limit }
    {
        self.marks
    }

    // Puts a report in its place, where it is of the program and there is room.
    fn put(&mut self, report: Report) -> Result<(), Memory>
        requires is_report { IsReport report }
        requires ours { IsOfCollection self.old report }
        requires absent { report_at report.run self.old.reports ≡ None }
        requires room { length self.old.reports < report_limit }
        requires fits { marks_of self.old.reports + length report.entries ≤ mark_limit }
        ensures ok { OnOk result (self.new ≡ record self.old { reports = with_report report self.old.reports }) }
        ensures err { OnErr result (self.new ≡ self.old) }
    {
        let more = report.entries.len();
        self.reports.insert(report.run, report)?;
        self.marks += more;
        Ok(())
    }
}

/// The text of a collection, in the second version.
pub fn write_collection(alloc: Global, collection: &Collection) -> Result<Vec<u8>, Memory>
    ensures { IfOk result (λ text. text.items ≡ collection_text collection.now) }
{
    let mut out = Vec::from_slice(alloc, b"cbi-collection 2\nprogram ")?;
    out.extend_from_slice(id_text(&collection.identity()).as_slice())?;
    out.push(b'\n')?;
    out.extend_from_slice(collection.report_texts(alloc)?.as_slice())?;
    out.extend_from_slice(b"end\n")?;
    Ok(out)
}
