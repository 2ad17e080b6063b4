//! Eliminations of a collection's runs: the quick one beside the reference, the predicates that they list, and the text of a ranking.
ghost use Rattle.std.specs.Prelude.{◌≡◌, ◌<◌, IfSome};
ghost use Rattle.collector.specs.Sites.{branches_of};
ghost use Rattle.report_file.specs.Report.{IsReport};

use crate::card_rows::tell_cards;
use crate::finding::program;
use crate::line_rows::tell_lines;
use crate::session_rows::tell_session;
use cases_rows::{Page, expect, expect_rest, has_head};
use cbi_base::{Policy, ProgramId};
use collector::{Added, Collection, RunText, read_collection, read_run};
use elimination::{Eliminator, Steps, elimination};
use elimination_reference::plain_elimination;
use elimination_tallies::Listed;
use flow::SiteTable;
use fractions::Tally;
use ranking::ranking_of;
use report_file::Report;
use std::marker::Brand;
use std::sync::ledger::{Blank, Ledger};

/// The policies, with the heads of what a row says of each: the predicates that are listed, what is left behind them, and the ranking's text.
const POLICIES: [(Policy, &str, &str, &str); 3] = [
    (Policy::All, "leaders all", "left all", "ranking all"),
    (
        Policy::Failing,
        "leaders failing",
        "left failing",
        "ranking failing",
    ),
    (
        Policy::Relabel,
        "leaders relabel",
        "left relabel",
        "ranking relabel",
    ),
];

/// The report of the run whose lines stand behind this place.
pub fn run_behind(
    program: &ProgramId,
    bytes: &[u8],
    place: usize,
    told: &mut Page,
) -> Option<Report>
    ensures { IfSome result IsReport }
{
    if place >= bytes.len() {
        return None;
    }
    match read_run(told.alloc(), program, bytes, place + 1) {
        Ok(Some(found)) => {
            let RunText { report, .. } = found;
            Some(report)
        }
        Ok(None) => None,
        Err(_) => {
            told.want();
            None
        }
    }
}

/// Adds a report of a run that isn't held yet; where it is refused, that is told.
fn add(collection: &mut Collection, report: Report, told: &mut Page)
    requires { IsReport report }
    ensures { collection.new.branches ≡ collection.old.branches }
{
    match collection.add(report) {
        Ok(Added::New) => (),
        Ok(Added::Repeated) | Err(_) => told.say("\na run is refused"),
    }
}

/// Adds the runs of a text.
fn add_runs(collection: &mut Collection, program: &ProgramId, bytes: &[u8], told: &mut Page)
    ensures { collection.new.branches ≡ collection.old.branches }
{
    for (place, byte) in bytes.iter().enumerate() {
        if *byte == b'\n' {
            if let Some(report) = run_behind(program, bytes, place, told) {
                add(collection, report, told);
            }
        }
    }
}

/// How many runs a text has; None where it is that of no collection.
fn count_runs(bytes: &[u8], told: &mut Page) -> Option<usize> {
    match read_collection(told.alloc(), bytes) {
        Ok(bundle) => Some(bundle.reports.len()),
        Err(_) => None,
    }
}

/// Tells the predicates of the leaders where the row's line with this head says others.
fn expect_leaders(row: &str, head: &str, listed: &[Listed], told: &mut Page) {
    let mut came = Page::new(told.alloc());
    for each in listed {
        came.say(" ");
        came.number(each.predicate);
    }
    expect_rest(row, head, &came, told);
}

/// Tells where the reference lists other leaders under a policy, or the row says others; how many are listed.
fn tell_policy(
    row: &str,
    table: &SiteTable,
    collection: &Collection,
    policy: (Policy, &str),
    told: &mut Page,
) -> usize
    requires { collection.now.branches ≡ branches_of table.now.sites }
{
    let (policy, head) = policy;
    let quick = elimination(told.alloc(), collection, table, policy);
    let plain = plain_elimination(told.alloc(), collection, table, policy);
    let (Ok(quick), Ok(plain)) = (quick, plain) else {
        told.want();
        return 0;
    };
    if quick.as_slice() != plain.as_slice() {
        told.say("\nthe reference lists others");
    }
    expect_leaders(row, head, quick.as_slice(), told);
    quick.len()
}

/// Adds the four numbers of a predicate.
pub fn push_numbers(tally: Tally, came: &mut Page) {
    for number in [tally.a, tally.b, tally.c, tally.d] {
        came.say(" ");
        came.number(number);
    }
}

/// Adds how many runs are left, and the numbers that are kept of the first predicate.
fn push_left(eliminator: &Eliminator, came: &mut Page) {
    came.say(" ");
    came.number(eliminator.runs_left());
    let tallies = eliminator.tallies();
    if tallies.predicates() > 0 {
        push_numbers(tallies.of(0), came);
    }
}

/// Adds what is left behind so many leaders, where no more come, counting steps by a ledger of its own.
fn push_left_by<L: Ledger>(
    eliminator: &mut Eliminator,
    leaders: usize,
    blank: Blank,
    came: &mut Page,
)
    requires name { blank.name ≡ L.name }
    requires parts { blank.parts ≡ L.parts }
    requires some { 0 < blank.parts }
{
    let mut steps = Steps::<L>::new(blank);
    for _ in 0..leaders {
        let _leader = eliminator.next(&mut steps);
    }
    if eliminator.next(&mut steps).is_some() {
        came.say(" more leaders");
    }
    push_left(eliminator, came);
}

/// Tells the runs that are left behind so many leaders, and the numbers that are kept of the first predicate, where the row says others.
fn tell_left(
    row: &str,
    table: &SiteTable,
    collection: &Collection,
    policy: (Policy, &str),
    leaders: usize,
    told: &mut Page,
)
    requires { collection.now.branches ≡ branches_of table.now.sites }
{
    let (policy, head) = policy;
    let mut came = Page::new(told.alloc());
    match Eliminator::new(told.alloc(), collection, table, policy) {
        Ok(mut eliminator) => {
            push_left_by::<Brand>(&mut eliminator, leaders, Blank::new(1), &mut came);
        }
        Err(_) => came.want(),
    }
    expect_rest(row, head, &came, told);
}

/// Tells a ranking's text where the row says another one.
fn tell_ranking(
    row: &str,
    table: &SiteTable,
    collection: &Collection,
    policy: (Policy, &str),
    told: &mut Page,
)
    requires { collection.now.branches ≡ branches_of table.now.sites }
{
    let (policy, head) = policy;
    if has_head(row, head) {
        match ranking_of(told.alloc(), collection, table, policy) {
            Ok(text) => expect(row, head, text.as_slice(), told),
            Err(_) => told.want(),
        }
    }
}

fn tell_collection(row: &str, table: &SiteTable, collection: &Collection, told: &mut Page) -> u32
    requires { collection.now.branches ≡ branches_of table.now.sites }
{
    let mut several = 0u32;
    for (policy, leaders, left, ranking) in POLICIES {
        let listed = tell_policy(row, table, collection, (policy, leaders), told);
        if listed > 1 {
            several = several.saturating_add(1);
        }
        if has_head(row, left) {
            tell_left(row, table, collection, (policy, left), listed, told);
        }
        tell_ranking(row, table, collection, (policy, ranking), told);
    }
    tell_cards(row, table, collection, told);
    tell_lines(row, table, collection, told);
    several
}

/// Tells what doesn't come as the row says of the eliminations of these runs, which the collection takes; how many of them list several leaders.
fn tell_runs(
    row: &str,
    table: &SiteTable,
    collection: &mut Collection,
    program: &ProgramId,
    bytes: &[u8],
    told: &mut Page,
) -> u32
    requires { collection.old.branches ≡ branches_of table.now.sites }
{
    let runs = count_runs(bytes, told);
    add_runs(collection, program, bytes, told);
    if runs != Some(collection.reports_held() as usize) {
        told.say("\nother runs");
        return 0;
    }
    tell_collection(row, table, collection, told)
}

/// Tells what doesn't come as the row says of the eliminations of a collection's runs; how many of them list several leaders.
pub fn tell_eliminations(row: &str, table: &SiteTable, bytes: &[u8], told: &mut Page) -> u32 {
    let Some(program) = program() else {
        told.say("\nno collection");
        return 0;
    };
    tell_session(row, table, &program, bytes, told);
    match Collection::new(told.alloc(), program, table) {
        Ok(mut collection) => tell_runs(row, table, &mut collection, &program, bytes, told),
        Err(_) => {
            told.want();
            0
        }
    }
}
