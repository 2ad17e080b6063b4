ghost use Rattle.std.specs.Prelude.{◌≡◌, [], IfErr, IfOk, OnOk};
ghost use Rattle.cbi_base.specs.declared.policy.Policy.{Policy};
ghost use Rattle.collector.specs.Sites.{branches_of};
ghost use Rattle.report_file.specs.Report.{IsReport};
ghost use Rattle.session_edits.specs.Spelling.{AreEdits, IsEdit};
ghost use Rattle.session_laws.specs.Accepted.{TakesEdit};
ghost use Rattle.session_replay.specs.Replay.{AreAccepted, AreRankings, FaultsAt, Ranks, StopsAt, Writes, no_runs};

use crate::fault::EditFault;
use cbi_base::{Memory, Policy, ProgramId, Seq};
use collector::AddFault;
use flow::SiteTable;
use ranking::{eliminations_are_rows, ranking_text};
use report_file::{Label, Report};
use session::Session;
use session_edits::Edit;
use std::alloc::Global;

fn add(session: &mut Session, report: Report) -> Result<(), EditFault>
    requires { IsReport report }
    ensures takes { OnOk result (TakesEdit session.old.held (Edit.Add report) session.new.held) }
    ensures policy { session.new.policy ≡ session.old.policy }
    ensures fault { IfErr result (FaultsAt session.old.held (Edit.Add report)) }
{
    match session.add(report) {
        Ok(_) => Ok(()),
        Err(AddFault::Memory) => Err(EditFault::Memory),
        Err(fault) => Err(EditFault::NotAdded { fault }),
    }
}

fn remove(session: &mut Session, run: u32) -> Result<(), EditFault>
    ensures takes { OnOk result (TakesEdit session.old.held (Edit.Remove run) session.new.held) }
    ensures policy { session.new.policy ≡ session.old.policy }
    ensures fault { IfErr result (FaultsAt session.old.held (Edit.Remove run)) }
{
    if session.remove(run) {
        Ok(())
    } else {
        Err(EditFault::Absent { run })
    }
}

fn relabel(session: &mut Session, run: u32, label: Label) -> Result<(), EditFault>
    ensures takes { OnOk result (TakesEdit session.old.held (Edit.Relabel run label) session.new.held) }
    ensures policy { session.new.policy ≡ session.old.policy }
    ensures fault { IfErr result (FaultsAt session.old.held (Edit.Relabel run label)) }
{
    if session.relabel(run, label) {
        Ok(())
    } else {
        Err(EditFault::Absent { run })
    }
}

// The ranking of the runs that are held.
fn push_ranking(
    alloc: Global,
    session: &Session,
    table: &SiteTable,
    text: &mut Vec<u8>,
) -> Result<(), Memory>
    requires { session.now.held.branches ≡ branches_of table.now.sites }
    ensures { OnOk result (Ranks table.now session.now text.old.items text.new.items) }
{
    session.keeps();
    let rows = session.rank(alloc)?;
    eliminations_are_rows();
    let piece = ranking_text(alloc, rows.as_slice(), table)?;
    text.extend_from_slice(piece.as_slice())?;
    Ok(())
}

// One edit.
fn step(
    alloc: Global,
    session: &mut Session,
    table: &SiteTable,
    text: &mut Vec<u8>,
    edit: Edit,
) -> Result<(), EditFault>
    requires fits { IsEdit session.old.held.program edit }
    requires table { session.old.held.branches ≡ branches_of table.now.sites }
    ensures takes { OnOk result (TakesEdit session.old.held edit session.new.held) }
    ensures policy { session.new.policy ≡ session.old.policy }
    ensures text { OnOk result (Writes table.now session.old edit text.old.items text.new.items) }
    ensures fault { IfErr result (FaultsAt session.old.held edit) }
{
    match edit {
        Edit::Add { report } => add(session, report),
        Edit::Remove { run } => remove(session, run),
        Edit::Relabel { run, label } => relabel(session, run, label),
        Edit::Rank => match push_ranking(alloc, &*session, table, text) {
            Ok(()) => Ok(()),
            Err(Memory) => Err(EditFault::Memory),
        },
    }
}

// All edits, by a session that holds no runs.
fn replay_by(
    alloc: Global,
    session: &mut Session,
    table: &SiteTable,
    edits: Seq<Edit>,
) -> Result<Vec<u8>, EditFault>
    requires edits { AreEdits session.old.held.program edits }
    requires table { session.old.held.branches ≡ branches_of table.now.sites }
    requires none { session.old.held.reports ≡ [] }
    ensures accepted { IfOk result (λ text. AreAccepted session.old.held edits) }
    ensures rankings { IfOk result (λ text. AreRankings table.now session.old.policy [] edits text.items) }
    ensures fault { IfErr result (StopsAt session.old.held edits) }
{
    let mut text = Vec::new(alloc);
    let mut rest = edits.into_vec();
    rest.reverse();
    while let Some(edit) = rest.pop() {
        match step(alloc, session, table, &mut text, edit) {
            Ok(()) => continue,
            Err(fault) => return Err(fault),
        }
    }
    Ok(text)
}

/// The text of all rankings that the edits ask for, one behind another: each of what the edits before it say is held. The first faulty edit is told: an
/// addition as a collection answers it, and a removal or a relabelling of a run that isn't held.
pub fn replay(
    alloc: Global,
    program: ProgramId,
    table: &SiteTable,
    policy: Policy,
    edits: Seq<Edit>,
) -> Result<Vec<u8>, EditFault>
    requires { AreEdits program edits }
    ensures accepted { IfOk result (λ text. AreAccepted (no_runs program table.now) edits) }
    ensures rankings { IfOk result (λ text. AreRankings table.now policy [] edits text.items) }
    ensures fault { IfErr result (StopsAt (no_runs program table.now) edits) }
{
    match Session::new(alloc, program, table, policy) {
        Ok(mut session) => replay_by(alloc, &mut session, table, edits),
        Err(Memory) => Err(EditFault::Memory),
    }
}
