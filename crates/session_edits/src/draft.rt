ghost use Rattle.std.specs.Prelude.{◌≡◌, ◌⊎◌, OnOk};
ghost use Rattle.cbi_base.specs.LineFaults.{TakenWith};
ghost use Rattle.session_edits.specs.Grammar.{
  AddFollows,
  AddedSiteFollows,
  ChangeFollows,
  EditLineComes,
  EditsEndFollows,
  RankFollows,
  TitleFollows,
  report_closed,
  edits_start,
};
ghost use Rattle.session_edits.specs.declared.draft.Draft.{Draft};
ghost use Rattle.session_edits.specs.declared.draft.Due.TheVariants as due;

use crate::edit::Edit;
use crate::lines::{added_run_in, change_in, second_byte};
use cbi_base::{LineError, LineReader, Memory, ProgramId, Seq};
use report_file::{Report, entry_in};
use std::alloc::Global;

/// The most bytes of a text of edits.
const MOST_BYTES: usize = 1073741824;

/// The most rankings that a text of edits asks for.
const MOST_RANKS: u32 = 1000;

/// What a text of edits calls for next.
#[derive(Clone, Copy, Debug, PartialEq, Eq)]
pub enum Due {
    Title,
    Edits,
    Nothing,
}

/// Edits as far as they were read: what is due, whose reports are added, the edits that are whole and the report that goes on, the least site that
/// may come next in it, and how many rankings were asked for.
#[derive(Drop)]
pub struct Draft {
    pub alloc: Global,
    pub due: Due,
    pub program: ProgramId,
    pub edits: Seq<Edit>,
    pub current: Option<Report>,
    pub site: u32,
    pub ranks: u32,
}

/// A draft, and for how many bytes more there is room.
#[derive(Drop)]
pub struct Reading {
    pub room: usize,
    pub draft: Draft,
}

impl Draft {
    fn take_title(&mut self, line: &[u8]) -> Result<(), LineError>
        ensures ok { OnOk result (TitleFollows self.old line.now self.new) }
        ensures only { (next : Draft) → TitleFollows self.old line.now next → TakenWith result (self.new ≡ next) }
    {
        if line != b"cbi-edits 1".as_slice() {
            return Err(LineError::Bad);
        }
        self.due = Due::Edits;
        Ok(())
    }

    // The report that goes on is whole.
    fn close(&mut self) -> Result<(), Memory>
        ensures { OnOk result (self.new ≡ report_closed self.old) }
    {
        let Some(report) = self.current.take() else {
            return Ok(());
        };
        self.edits.push(Edit::Add { report })
    }

    fn take_added(&mut self, line: &[u8]) -> Result<(), LineError>
        ensures ok { OnOk result (AddFollows self.old line.now self.new) }
        ensures only { (next : Draft) → AddFollows self.old line.now next → TakenWith result (self.new ≡ next) }
    {
        let Some(x) = added_run_in(line) else {
            return Err(LineError::Bad);
        };
        let Ok(()) = self.close() else {
            return Err(LineError::Memory);
        };
        self.current = Some(Report {
            program: self.program,
            run: x.run,
            outcome: x.outcome,
            label: x.label,
            work: x.work,
            entries: Seq::new(self.alloc),
        });
        self.site = 0;
        Ok(())
    }

    fn take_site(&mut self, line: &[u8]) -> Result<(), LineError>
        ensures ok { OnOk result (AddedSiteFollows self.old line.now self.new) }
        ensures only { (next : Draft) → AddedSiteFollows self.old line.now next → TakenWith result (self.new ≡ next) }
    {
        let Some(entry) = entry_in(line) else {
            return Err(LineError::Bad);
        };
        if entry.site < self.site {
            return Err(LineError::Bad);
        }
        let Some(mut report) = self.current.take() else {
            return Err(LineError::Bad);
        };
        let Ok(()) = report.entries.push(entry) else {
            return Err(LineError::Memory);
        };
        self.current = Some(report);
        self.site = entry.site + 1;
        Ok(())
    }

    fn take_change(&mut self, line: &[u8]) -> Result<(), LineError>
        ensures ok { OnOk result (ChangeFollows self.old line.now self.new) }
        ensures only { (next : Draft) → ChangeFollows self.old line.now next → TakenWith result (self.new ≡ next) }
    {
        let Ok(()) = self.close() else {
            return Err(LineError::Memory);
        };
        let Some(change) = change_in(line) else {
            return Err(LineError::Bad);
        };
        let Ok(()) = self.edits.push(change) else {
            return Err(LineError::Memory);
        };
        Ok(())
    }

    fn take_rank(&mut self, line: &[u8]) -> Result<(), LineError>
        ensures ok { OnOk result (RankFollows self.old line.now self.new) }
        ensures only { (next : Draft) → RankFollows self.old line.now next → TakenWith result (self.new ≡ next) }
    {
        if line != b"rank".as_slice() || self.ranks >= MOST_RANKS {
            return Err(LineError::Bad);
        }
        let Ok(()) = self.close() else {
            return Err(LineError::Memory);
        };
        let Ok(()) = self.edits.push(Edit::Rank) else {
            return Err(LineError::Memory);
        };
        self.ranks += 1;
        Ok(())
    }

    fn take_end(&mut self, line: &[u8]) -> Result<(), LineError>
        ensures ok { OnOk result (EditsEndFollows self.old line.now self.new) }
        ensures only { (next : Draft) → EditsEndFollows self.old line.now next → TakenWith result (self.new ≡ next) }
    {
        if line != b"end".as_slice() {
            return Err(LineError::Bad);
        }
        let Ok(()) = self.close() else {
            return Err(LineError::Memory);
        };
        self.due = Due::Nothing;
        Ok(())
    }

    // No two kinds of lines have the same second byte.
    fn take_line(&mut self, line: &[u8]) -> Result<(), LineError>
        ensures ok { OnOk result (EditLineComes due.Edits self.old line.now self.new) }
        ensures only { (next : Draft) → EditLineComes due.Edits self.old line.now next → TakenWith result (self.new ≡ next) }
    {
        match second_byte(line) {
            b'd' => self.take_added(line),
            b'i' => self.take_site(line),
            b'e' => self.take_change(line),
            b'a' => self.take_rank(line),
            _ => self.take_end(line),
        }
    }

    fn take_due(&mut self, line: &[u8]) -> Result<(), LineError>
        ensures ok { OnOk result (EditLineComes self.old.due self.old line.now self.new) }
        ensures only { (next : Draft) → EditLineComes self.old.due self.old line.now next → TakenWith result (self.new ≡ next) }
    {
        match self.due {
            Due::Title => self.take_title(line),
            Due::Edits => self.take_line(line),
            Due::Nothing => Err(LineError::Bad),
        }
    }
}

impl Reading {
    /// Nothing is read yet.
    pub fn new(alloc: Global, program: ProgramId) -> Reading
        ensures { result ≡ edits_start alloc program }
    {
        Reading {
            room: MOST_BYTES,
            draft: Draft {
                alloc,
                due: Due::Title,
                program,
                edits: Seq::new(alloc),
                current: None,
                site: 0,
                ranks: 0,
            },
        }
    }

    /// The edits that were read.
    pub fn into_edits(self) -> Seq<Edit>
        ensures { result ≡ self.draft.edits }
    {
        let Reading { room: _, draft } = self;
        let Draft {
            alloc: _,
            due: _,
            program: _,
            edits,
            current: _,
            site: _,
            ranks: _,
        } = draft;
        edits
    }
}

impl LineReader for Reading {
    ghost use Rattle.session_edits.specs.Grammar.{EditLineFollows, EditsEnd};

    ghost follows = { EditLineFollows };

    ghost ends = { EditsEnd };

    fn take(&mut self, line: &[u8]) -> Result<(), LineError> {
        if line.len() >= self.room {
            return Err(LineError::Bad);
        }
        self.room -= line.len() + 1;
        self.draft.take_due(line)
    }

    fn may_end(&self) -> bool {
        self.draft.due == Due::Nothing
    }
}
