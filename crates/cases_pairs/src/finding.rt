//! The best pair of made runs, beside the one that the plain body finds.
ghost use Rattle.std.specs.Prelude.{◌≡◌};
ghost use Rattle.collector.specs.Sites.{branches_of};

use crate::collected::{add_runs, table_of};
use crate::made::Made;
use crate::plain::{Found, plain_pairs};
use cases_rows::{Page, expect, has_line};
use cbi_base::{ProgramId, read_id};
use collector::Collection;
use compound::{best_pair, pairs_text};
use flow::SiteTable;

/// The identity in the reports.
const IDENTITY: &str = "e3b0c44298fc1c149afbf4c8996fb92427ae41e4649b934ca495991b7852b855";

/// Tells where what is found over a collection isn't as the plain body finds it, or as the row says.
fn tell_found(row: &str, table: &SiteTable, collection: &Collection, plain: &Found, told: &mut Page)
    requires { collection.now.branches ≡ branches_of table.now.sites }
{
    let Ok(found) = best_pair(told.alloc(), collection, table) else {
        return told.want();
    };
    if found != plain.result {
        told.say("\nthe plain body finds ");
        told.debug(plain.result);
        told.say("\nand not ");
        told.debug(found);
    }
    match pairs_text(told.alloc(), &found, table) {
        Ok(text) if has_line(row, "found") => expect(row, "found", text.as_slice(), told),
        Ok(_) => (),
        Err(_) => told.want(),
    }
}

/// The same over the made runs, which the collection takes.
fn tell_runs(
    row: &str,
    table: &SiteTable,
    collection: &mut Collection,
    made: &Made,
    plain: &Found,
    told: &mut Page,
)
    requires { collection.old.branches ≡ branches_of table.now.sites }
{
    add_runs(collection, made, told);
    if collection.reports_held() as usize != made.labels.len() {
        return told.say("\nother runs");
    }
    tell_found(row, table, collection, plain, told);
}

/// The same, where the table is that of the made sites.
fn tell_table(row: &str, table: &SiteTable, made: &Made, plain: &Found, told: &mut Page) {
    let Some(program) = read_id(IDENTITY.as_bytes()) else {
        return told.say("\nno identity");
    };
    match Collection::new(told.alloc(), program, table) {
        Ok(mut collection) => tell_runs(row, table, &mut collection, made, plain, told),
        Err(_) => told.want(),
    }
}

/// Tells what doesn't come as the row says of the best pair of made runs, or as the plain body finds it, whose find this gives.
pub fn tell_pairs(row: &str, made: &Made, told: &mut Page) -> Found {
    let plain = plain_pairs(made, told);
    match table_of(made, told) {
        Some(table) => tell_table(row, &table, made, &plain, told),
        None => told.say("\nno table"),
    }
    plain
}
