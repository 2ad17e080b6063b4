//! A session that takes the runs of a text: its leader, and the numbers that it keeps of the first predicate.
ghost use Rattle.std.specs.Prelude.{◌≡◌};
ghost use Rattle.collector.specs.Sites.{branches_of};
ghost use Rattle.report_file.specs.Report.{IsReport};

use crate::ranking_rows::{push_numbers, run_behind};
use cases_rows::{Page, expect_rest, has_head};
use cbi_base::{Policy, ProgramId};
use collector::{Added, branches_of};
use elimination_reference::predicates_in;
use flow::SiteTable;
use report_file::Report;
use session::Session;

/// Adds a report of a run that isn't held yet; where it is refused, that is told.
fn add(session: &mut Session, report: Report, told: &mut Page)
    requires { IsReport report }
    ensures { session.new.held.branches ≡ session.old.held.branches }
{
    match session.add(report) {
        Ok(Added::New) => (),
        Ok(Added::Repeated) | Err(_) => told.say("\na session refuses a run"),
    }
}

/// Adds the runs of a text.
fn add_runs(session: &mut Session, program: &ProgramId, bytes: &[u8], told: &mut Page)
    ensures { session.new.held.branches ≡ session.old.held.branches }
{
    for (place, byte) in bytes.iter().enumerate() {
        if *byte == b'\n' {
            if let Some(report) = run_behind(program, bytes, place, told) {
                add(session, report, told);
            }
        }
    }
}

/// Tells the leader with its numbers, where the row says another one.
fn tell_leader(row: &str, session: &Session, told: &mut Page) {
    let mut came = Page::new(told.alloc());
    match session.leader() {
        Some(listed) => {
            came.say(" ");
            came.number(listed.predicate);
            push_numbers(listed.tally, &mut came);
        }
        None => came.say(" none"),
    }
    expect_rest(row, "session leader", &came, told);
}

/// Tells the numbers of the first predicate, where the row says others.
fn tell_first(row: &str, table: &SiteTable, session: &Session, told: &mut Page)
    requires { session.now.held.branches ≡ branches_of table.now.sites }
{
    let Ok(branches) = branches_of(told.alloc(), table.sites()) else {
        return told.want();
    };
    let mut came = Page::new(told.alloc());
    if predicates_in(branches.as_slice()) > 0 {
        push_numbers(session.tally(0), &mut came);
    }
    expect_rest(row, "session first", &came, told);
}

/// Tells what doesn't come as the row says of a session that takes the runs of a text.
pub fn tell_session(
    row: &str,
    table: &SiteTable,
    program: &ProgramId,
    bytes: &[u8],
    told: &mut Page,
) {
    if !has_head(row, "session leader") {
        return;
    }
    match Session::new(told.alloc(), *program, table, Policy::All) {
        Ok(mut session) => {
            add_runs(&mut session, program, bytes, told);
            tell_leader(row, &session, told);
            tell_first(row, table, &session, told);
        }
        Err(_) => told.want(),
    }
}
