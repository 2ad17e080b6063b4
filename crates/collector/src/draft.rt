ghost use Rattle.std.specs.Prelude.{◌≡◌, ◌⊎◌, ◌↔◌, ◌≤◌, OnOk, IsTrue, None, length, slice_index};
ghost use Rattle.collector.specs.Collected.{report_limit};
ghost use Rattle.cbi_base.specs.LineFaults.{TakenWith};
ghost use Rattle.collector.specs.Grammar.{EndFollows, RunFollows, RunSiteFollows, ProgramFollows, TitleFollows, current_report_closed, bundle_start};
ghost use Rattle.collector.specs.Grammar.{draft_reports};
ghost use Rattle.collector.specs.declared.draft.Draft.{Draft};
ghost use Rattle.report_file.specs.Reading.{Reads};
ghost use Rattle.collector.specs.Spelling.{bundle_title};

use crate::collection::Bundle;
use cbi_base::{LineError, LineReader, Memory, ProgramId, Seq};
use report_file::{Report, Version, entry_in, program_in, run_line_in};
use std::alloc::Global;

/// The most reports in a collection.
const MOST_REPORTS: usize = 100000;

/// The most site lines in a collection.
const MOST_MARKS: u32 = 16777216;

/// What a collection's text calls for next.
#[derive(Clone, Copy, Debug, PartialEq, Eq)]
pub enum Due {
    Title,
    Program,
    Runs,
    Nothing,
}

/// A collection as far as it was read: what is due, the version, the identity, the reports that are whole and the one that goes on, the least
/// run and the least site that may come next, and how many site lines there were.
#[derive(Drop)]
pub struct Draft {
    pub alloc: Global,
    pub due: Due,
    pub version: Version,
    pub program: ProgramId,
    pub reports: Seq<Report>,
    pub current: Option<Report>,
    pub run: u64,
    pub site: u32,
    pub marks: u32,
}

fn version_in(line: &[u8]) -> Option<Version>
    ensures { Reads bundle_title (λ _. Unit {0}) line.now result }
{
    if line == b"cbi-collection 1".as_slice() {
        return Some(Version::First);
    }
    if line == b"cbi-collection 2".as_slice() {
        return Some(Version::Second);
    }
    None
}

// Whether a run's line can begin so; no other line does.
fn begins_run(line: &[u8]) -> bool
    ensures { IsTrue result ↔ (slice_index line.now 0 ≡ 114) }
{
    match line {
        [first, ..] => *first == b'r',
        [] => false,
    }
}

impl Draft {
    /// Nothing is read yet.
    pub fn new(alloc: Global) -> Draft
        ensures { result ≡ bundle_start alloc }
    {
        Draft {
            alloc,
            due: Due::Title,
            version: Version::Second,
            program: ProgramId { bytes: [0; 32] },
            reports: Seq::new(alloc),
            current: None,
            run: 0,
            site: 0,
            marks: 0,
        }
    }

    /// The reports that were read.
    pub fn into_bundle(self) -> Bundle
        ensures { result ≡ record { program = self.program; reports = self.reports } }
    {
        let Draft {
            alloc: _,
            due: _,
            version: _,
            program,
            reports,
            current: _,
            run: _,
            site: _,
            marks: _,
        } = self;
        Bundle { program, reports }
    }

    fn take_title(&mut self, line: &[u8]) -> Result<(), LineError>
        ensures ok { OnOk result (TitleFollows self.old line.now self.new) }
        ensures only { (next : Draft) → TitleFollows self.old line.now next → TakenWith result (self.new ≡ next) }
    {
        let Some(version) = version_in(line) else {
            return Err(LineError::Bad);
        };
        self.due = Due::Program;
        self.version = version;
        Ok(())
    }

    fn take_program(&mut self, line: &[u8]) -> Result<(), LineError>
        ensures ok { OnOk result (ProgramFollows self.old line.now self.new) }
        ensures only { (next : Draft) → ProgramFollows self.old line.now next → TakenWith result (self.new ≡ next) }
    {
        let Some(program) = program_in(line) else {
            return Err(LineError::Bad);
        };
        self.due = Due::Runs;
        self.program = program;
        Ok(())
    }

    // The report that goes on is whole.
    fn close(&mut self) -> Result<(), Memory>
        ensures { OnOk result (self.new ≡ current_report_closed self.old) }
    {
        let Some(report) = self.current.take() else {
            return Ok(());
        };
        self.reports.push(report)
    }

    // Whether there are as many reports as may be.
    fn is_full(&self) -> bool
        ensures { IsTrue result ↔ (report_limit ≤ length (draft_reports self.now)) }
    {
        match self.current {
            None => self.reports.len() >= MOST_REPORTS,
            Some(_) => self.reports.len() >= MOST_REPORTS - 1,
        }
    }

    fn take_run(&mut self, line: &[u8]) -> Result<(), LineError>
        ensures ok { OnOk result (RunFollows self.old line.now self.new) }
        ensures only { (next : Draft) → RunFollows self.old line.now next → TakenWith result (self.new ≡ next) }
    {
        let Some(x) = run_line_in(self.version, line) else {
            return Err(LineError::Bad);
        };
        if u64::from(x.run) < self.run || self.is_full() {
            return Err(LineError::Bad);
        }
        let Ok(()) = self.close() else {
            return Err(LineError::Memory);
        };
        self.current = Some(Report {
            program: self.program,
            run: x.run,
            outcome: x.outcome,
            label: x.label,
            work: x.work,
            entries: Seq::new(self.alloc),
        });
        self.run = u64::from(x.run) + 1;
        self.site = 0;
        Ok(())
    }

    fn take_site(&mut self, line: &[u8]) -> Result<(), LineError>
        ensures ok { OnOk result (RunSiteFollows self.old line.now self.new) }
        ensures only { (next : Draft) → RunSiteFollows self.old line.now next → TakenWith result (self.new ≡ next) }
    {
        let Some(entry) = entry_in(line) else {
            return Err(LineError::Bad);
        };
        if entry.site < self.site || self.marks >= MOST_MARKS {
            return Err(LineError::Bad);
        }
        let Some(mut report) = self.current.take() else {
            return Err(LineError::Bad);
        };
        let Ok(()) = report.entries.push(entry) else {
            return Err(LineError::Memory);
        };
        self.current = Some(report);
        self.site = entry.site + 1;
        self.marks += 1;
        Ok(())
    }

    fn take_line(&mut self, line: &[u8]) -> Result<(), LineError>
        ensures ok { OnOk result (RunFollows self.old line.now self.new ⊎ (RunSiteFollows self.old line.now self.new ⊎ EndFollows self.old line.now self.new)) }
        ensures only { (next : Draft) → RunFollows self.old line.now next ⊎ (RunSiteFollows self.old line.now next ⊎ EndFollows self.old line.now next)
            → TakenWith result (self.new ≡ next) }
    {
        if line == b"end".as_slice() {
            let Ok(()) = self.close() else {
                return Err(LineError::Memory);
            };
            self.due = Due::Nothing;
            return Ok(());
        }
        if begins_run(line) {
            return self.take_run(line);
        }
        self.take_site(line)
    }
}

impl LineReader for Draft {
    ghost use Rattle.collector.specs.Grammar.{BundleLineFollows, BundleEnds};

    ghost follows = { BundleLineFollows };

    ghost ends = { BundleEnds };

    fn take(&mut self, line: &[u8]) -> Result<(), LineError> {
        match self.due {
            Due::Title => self.take_title(line),
            Due::Program => self.take_program(line),
            Due::Runs => self.take_line(line),
            Due::Nothing => Err(LineError::Bad),
        }
    }

    fn may_end(&self) -> bool {
        self.due == Due::Nothing
    }
}
