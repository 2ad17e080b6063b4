ghost use Rattle.std.specs.Prelude.{◌≡◌, ◌⊎◌, ℕ, OnOk};
ghost use Rattle.cbi_base.specs.Words.{TakenWith, IsId};
ghost use Rattle.report_file.specs.Grammar.{Sets, SiteFollows, ReportEndFollows, report_start, with_version, with_program, with_run, with_outcome};
ghost use Rattle.report_file.specs.Grammar.{with_label, with_work, after_outcome};
ghost use Rattle.report_file.specs.Report.{IsOutcome, IsRun, IsWork};
ghost use Rattle.report_file.specs.Spelling.{label_fields, outcome_line, program_fields, run_fields, title_fields, work_fields};
ghost use Rattle.report_file.specs.declared.draft.Draft.{Draft};

use crate::label::{Label, label_of};
use crate::lines::{entry_in, label_of_line, outcome_in, program_in, run_in, version_in, work_in};
use crate::report::Report;
use cbi_base::{LineError, LineReader, Outcome, ProgramId, Seq, Work};
use std::alloc::Global;

/// The versions of a report's text. The first one has no label.
#[derive(Clone, Copy, Debug, PartialEq, Eq)]
pub enum Version {
    First,
    Second,
}

/// What a report's text calls for next.
#[derive(Clone, Copy, Debug, PartialEq, Eq)]
pub enum Due {
    Title,
    Program,
    Run,
    Outcome,
    Label,
    Work,
    Sites,
    Nothing,
}

/// A report as far as it was read: what is due, the version, the least number that the next site may have, and what the report says so far.
#[derive(Drop)]
pub struct Draft {
    pub due: Due,
    pub version: Version,
    pub site: u32,
    pub report: Report,
}

fn after_outcome(version: Version) -> Due
    ensures { result ≡ after_outcome version }
{
    match version {
        Version::First => Due::Work,
        Version::Second => Due::Label,
    }
}

impl Draft {
    /// Nothing is read yet.
    pub fn new(alloc: Global) -> Draft
        ensures { result ≡ report_start }
    {
        Draft {
            due: Due::Title,
            version: Version::Second,
            site: 0,
            report: Report {
                program: ProgramId { bytes: [0; 32] },
                run: 0,
                outcome: Outcome::CutTurns,
                label: Label::Uncounted,
                work: Work {
                    fast: 0,
                    slow: 0,
                    tests: 0,
                },
                entries: Seq::new(alloc),
            },
        }
    }

    /// What the report says.
    pub fn into_report(self) -> Report
        ensures { result ≡ self.report }
    {
        let Draft {
            due: _,
            version: _,
            site: _,
            report,
        } = self;
        report
    }

    fn take_title(&mut self, line: &[u8]) -> Result<(), LineError>
        ensures ok { OnOk result (Sets title_fields (λ _. Unit {0}) (with_version self.old) line.now self.new) }
        ensures only { (next : Draft) → Sets title_fields (λ _. Unit {0}) (with_version self.old) line.now next → TakenWith result (self.new ≡ next) }
    {
        let Some(version) = version_in(line) else {
            return Err(LineError::Bad);
        };
        self.due = Due::Program;
        self.version = version;
        Ok(())
    }

    fn take_program(&mut self, line: &[u8]) -> Result<(), LineError>
        ensures ok { OnOk result (Sets program_fields IsId (with_program self.old) line.now self.new) }
        ensures only { (next : Draft) → Sets program_fields IsId (with_program self.old) line.now next → TakenWith result (self.new ≡ next) }
    {
        let Some(program) = program_in(line) else {
            return Err(LineError::Bad);
        };
        self.due = Due::Run;
        self.report.program = program;
        Ok(())
    }

    fn take_run(&mut self, line: &[u8]) -> Result<(), LineError>
        ensures ok { OnOk result (Sets run_fields IsRun (with_run self.old) line.now self.new) }
        ensures only { (next : Draft) → Sets run_fields IsRun (with_run self.old) line.now next → TakenWith result (self.new ≡ next) }
    {
        let Some(run) = run_in(line) else {
            return Err(LineError::Bad);
        };
        self.due = Due::Outcome;
        self.report.run = run;
        Ok(())
    }

    fn take_outcome(&mut self, line: &[u8]) -> Result<(), LineError>
        ensures ok { OnOk result (Sets outcome_line IsOutcome (with_outcome self.old) line.now self.new) }
        ensures only { (next : Draft) → Sets outcome_line IsOutcome (with_outcome self.old) line.now next → TakenWith result (self.new ≡ next) }
    {
        let Some(outcome) = outcome_in(line) else {
            return Err(LineError::Bad);
        };
        self.due = after_outcome(self.version);
        self.report.outcome = outcome;
        self.report.label = label_of(outcome, true);
        Ok(())
    }

    fn take_label(&mut self, line: &[u8]) -> Result<(), LineError>
        ensures ok { OnOk result (Sets label_fields (λ _. Unit {0}) (with_label self.old) line.now self.new) }
        ensures only { (next : Draft) → Sets label_fields (λ _. Unit {0}) (with_label self.old) line.now next → TakenWith result (self.new ≡ next) }
    {
        let Some(label) = label_of_line(line) else {
            return Err(LineError::Bad);
        };
        self.due = Due::Work;
        self.report.label = label;
        Ok(())
    }

    fn take_work(&mut self, line: &[u8]) -> Result<(), LineError>
        ensures ok { OnOk result (Sets work_fields IsWork (with_work self.old) line.now self.new) }
        ensures only { (next : Draft) → Sets work_fields IsWork (with_work self.old) line.now next → TakenWith result (self.new ≡ next) }
    {
        let Some(work) = work_in(line) else {
            return Err(LineError::Bad);
        };
        self.due = Due::Sites;
        self.report.work = work;
        Ok(())
    }

    fn take_site(&mut self, line: &[u8]) -> Result<(), LineError>
        ensures ok { OnOk result (SiteFollows self.old line.now self.new) }
        ensures only { (next : Draft) → SiteFollows self.old line.now next → TakenWith result (self.new ≡ next) }
    {
        let Some(entry) = entry_in(line) else {
            return Err(LineError::Bad);
        };
        if entry.site < self.site {
            return Err(LineError::Bad);
        }
        let Ok(()) = self.report.entries.push(entry) else {
            return Err(LineError::Memory);
        };
        self.site = entry.site + 1;
        Ok(())
    }

    fn take_site_or_end(&mut self, line: &[u8]) -> Result<(), LineError>
        ensures ok { OnOk result (SiteFollows self.old line.now self.new ⊎ ReportEndFollows self.old line.now self.new) }
        ensures only { (next : Draft) → SiteFollows self.old line.now next ⊎ ReportEndFollows self.old line.now next → TakenWith result (self.new ≡ next) }
    {
        if line == b"end".as_slice() {
            self.due = Due::Nothing;
            return Ok(());
        }
        self.take_site(line)
    }
}

impl LineReader for Draft {
    ghost use Rattle.report_file.specs.Grammar.{ReportLineFollows, ReportEnds};

    ghost follows = { ReportLineFollows };

    ghost ends = { ReportEnds };

    fn take(&mut self, line: &[u8]) -> Result<(), LineError> {
        match self.due {
            Due::Title => self.take_title(line),
            Due::Program => self.take_program(line),
            Due::Run => self.take_run(line),
            Due::Outcome => self.take_outcome(line),
            Due::Label => self.take_label(line),
            Due::Work => self.take_work(line),
            Due::Sites => self.take_site_or_end(line),
            Due::Nothing => Err(LineError::Bad),
        }
    }

    fn may_end(&self) -> bool {
        self.due == Due::Nothing
    }
}
