//! The table of made sites, and the collection of made runs.
ghost use Rattle.std.specs.Prelude.{◌≡◌};

use crate::made::{Made, Saw};
use cases_rows::Page;
use cbi_base::{Name, Seq};
use collector::{Added, Collection};
use flow::{BranchWord, Site, SiteKind, SiteTable};
use report_file::{Label, Report, read_report};
use std::alloc::Global;

/// What stands before the number of a run.
const BEFORE_RUN: &str =
    "cbi-report 2\nprogram e3b0c44298fc1c149afbf4c8996fb92427ae41e4649b934ca495991b7852b855\nrun ";

fn name_of(bytes: &[u8], told: &mut Page) -> Option<Name> {
    told.done(Name::new(told.alloc(), bytes))?
}

fn kind_of(branch: bool, told: &mut Page) -> Option<SiteKind> {
    if branch {
        return Some(SiteKind::Branch {
            word: BranchWord::If,
        });
    }
    Some(SiteKind::Return {
        callee: name_of(b"f", told)?,
    })
}

fn push_site(place: usize, branch: bool, sites: &mut Seq<Site>, told: &mut Page) {
    let Some(kind) = kind_of(branch, told) else {
        return;
    };
    let site = Site {
        kind,
        function: 0,
        line: u32::try_from(place).unwrap_or(0).saturating_add(1),
        token: 0,
    };
    told.done(sites.push(site));
}

/// The table of the sites, which stand in `main` on a line each.
pub fn table_of(made: &Made, told: &mut Page) -> Option<SiteTable> {
    let mut sites = Seq::new(told.alloc());
    for (place, branch) in made.branches.iter().enumerate() {
        push_site(place, *branch, &mut sites, told);
    }
    let main = name_of(b"main", told)?;
    let mut functions = Seq::new(told.alloc());
    told.done(functions.push(main));
    SiteTable::new(sites, functions)
}

fn label_word(label: Label) -> &'static str {
    match label {
        Label::Fail => "fail",
        Label::Pass => "pass",
        Label::Uncounted => "none",
    }
}

fn push_count(seen: bool, text: &mut Page) {
    text.say(if seen { " 1" } else { " 0" });
}

fn push_saw(site: usize, saw: Saw, text: &mut Page) {
    text.say("site ");
    text.number(site as u64);
    push_count(saw.first, text);
    push_count(saw.second, text);
    push_count(saw.third, text);
    text.say("\n");
}

/// The text of a run's report. The runs are numbered from 1.
fn report_text(made: &Made, run: usize, label: Label, told: &mut Page) -> Page {
    let mut text = Page::new(told.alloc());
    text.say(BEFORE_RUN);
    text.number((run as u64).saturating_add(1));
    text.say("\noutcome ended 0\nlabel ");
    text.say(label_word(label));
    text.say("\nwork 0 0 0\n");
    for site in 0..made.branches.len() {
        if let Some(saw) = made.saw_of(run, site) {
            push_saw(site, saw, &mut text);
        }
    }
    text.say("end\n");
    told.heed(&text);
    text
}

/// Adds a run's report.
fn add_run(collection: &mut Collection, text: &Page, told: &mut Page)
    ensures { collection.new.branches ≡ collection.old.branches }
{
    let Ok(report) = read_report(told.alloc(), text.bytes()) else {
        return told.say("\nno report");
    };
    match collection.add(report) {
        Ok(Added::New) => (),
        Ok(Added::Repeated) | Err(_) => told.say("\na run is refused"),
    }
}

/// Adds all runs.
pub fn add_runs(collection: &mut Collection, made: &Made, told: &mut Page)
    ensures { collection.new.branches ≡ collection.old.branches }
{
    for (run, label) in made.labels.iter().enumerate() {
        let text = report_text(made, run, *label, told);
        add_run(collection, &text, told);
    }
}
