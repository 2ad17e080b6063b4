//! The predicates near another one: the quick list beside the reference, and the text of cards.
ghost use Rattle.std.specs.Prelude.{◌≡◌, ◌<◌};
ghost use Rattle.collector.specs.Sites.{branches_of};
ghost use Rattle.flow.specs.Predicates.{predicate_count};

use affinity::{cards, near};
use affinity_reference::plain_near;
use cases_rows::{Page, expect, has_head};
use collector::Collection;
use flow::{SiteTable, predicate_count};

/// Tells where the reference has others near a predicate.
fn tell_near(table: &SiteTable, collection: &Collection, predicate: u32, told: &mut Page)
    requires table { collection.now.branches ≡ branches_of table.now.sites }
    requires predicate { predicate < predicate_count table.now.sites }
{
    let quick = near(told.alloc(), collection, table, predicate);
    let plain = plain_near(told.alloc(), collection, table, predicate);
    let (Ok(quick), Ok(plain)) = (quick, plain) else {
        return told.want();
    };
    if quick.as_slice() != plain.as_slice() {
        told.say("\nthe reference has others near ");
        told.number(predicate);
    }
}

/// Tells the text of cards where the row says another one.
fn tell_text(row: &str, table: &SiteTable, collection: &Collection, told: &mut Page)
    requires { collection.now.branches ≡ branches_of table.now.sites }
{
    if has_head(row, "cards") {
        match cards(told.alloc(), collection, table) {
            Ok(text) => expect(row, "cards", text.as_slice(), told),
            Err(_) => told.want(),
        }
    }
}

/// Tells where others are near a predicate than the reference has, or the row says other cards.
pub fn tell_cards(row: &str, table: &SiteTable, collection: &Collection, told: &mut Page)
    requires { collection.now.branches ≡ branches_of table.now.sites }
{
    for predicate in 0..predicate_count(table) {
        tell_near(table, collection, predicate, told);
    }
    tell_text(row, table, collection, told);
}
