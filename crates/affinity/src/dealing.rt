ghost use Rattle.std.specs.Prelude.{◌≡◌, ◌<◌, All, IfOk, OnOk};
ghost use Rattle.cbi_base.specs.declared.policy.Policy.TheVariants.{All as Every};
ghost use Rattle.collector.specs.Sites.{branches_of};
ghost use Rattle.elimination_tallies.specs.Recount.{runs_of};
ghost use Rattle.elimination_tallies.specs.Tallies.{AreRecounts};
ghost use Rattle.elimination.specs.Elimination.{IsElimination};
ghost use Rattle.elimination_tallies.specs.declared.listed.Listed.{Listed};
ghost use Rattle.affinity.specs.Cards.{IsCard};
ghost use Rattle.affinity.specs.Dealing.{HaveCards, IsCardDealt, IsListed};
ghost use Rattle.affinity.specs.Text.{AreCardsOf};

use crate::first::first_failing;
use crate::nearby::near_by;
use crate::neighbour::Neighbour;
use crate::text::push_card;
use cbi_base::{Memory, Policy, Seq};
use collector::Collection;
use elimination::{elimination_from, predicates_are_those_of_the_table};
use elimination_tallies::{Listed, Numbers};
use flow::SiteTable;
use std::alloc::Global;

/// A listed predicate: in how many failing and successful runs it was true, the least number of such a failing run, and the predicates near it.
#[derive(Debug, Drop)]
pub struct Card {
    pub predicate: u32,
    pub failing: u32,
    pub successful: u32,
    pub first: u32,
    pub near: Seq<Neighbour>,
}

// The card of a listed predicate, by the numbers over all runs.
fn deal(
    alloc: Global,
    collection: &Collection,
    whole: &Numbers,
    row: &Listed,
) -> Result<Card, Memory>
    requires recounts { AreRecounts collection.now.branches (runs_of collection.now.reports) whole.now }
    requires listed { IsListed collection.now.branches (runs_of collection.now.reports) row.now.predicate }
    ensures { IfOk result (IsCard collection.now.branches collection.now.reports row.now.predicate) }
{
    let tally = whole.tally(row.predicate);
    let first = first_failing(collection, whole, row.predicate);
    let near = near_by(alloc, collection, whole, row.predicate)?;
    Ok(Card {
        predicate: row.predicate,
        failing: tally.a,
        successful: tally.b,
        first,
        near: Seq::from_vec(near),
    })
}

// The card of one leader, written behind the others.
fn push_dealt(
    alloc: Global,
    out: &mut Vec<u8>,
    collection: &Collection,
    table: &SiteTable,
    whole: &Numbers,
    place: u64,
    row: &Listed,
) -> Result<(), Memory>
    requires table { collection.now.branches ≡ branches_of table.now.sites }
    requires recounts { AreRecounts collection.now.branches (runs_of collection.now.reports) whole.now }
    requires listed { IsListed collection.now.branches (runs_of collection.now.reports) row.now.predicate }
    ensures { OnOk result (IsCardDealt table.now collection.now.reports place row.now.predicate out.old.items out.new.items) }
{
    predicates_are_those_of_the_table();
    let card = deal(alloc, collection, whole, row)?;
    push_card(alloc, out, table, place, &card)
}

// The cards of leaders in their order.
fn dealt(
    alloc: Global,
    collection: &Collection,
    table: &SiteTable,
    whole: &Numbers,
    rows: &[Listed],
) -> Result<Vec<u8>, Memory>
    requires table { collection.now.branches ≡ branches_of table.now.sites }
    requires recounts { AreRecounts collection.now.branches (runs_of collection.now.reports) whole.now }
    requires listed { All (λ (row : Listed). IsListed collection.now.branches (runs_of collection.now.reports) row.predicate) rows.now }
    ensures { IfOk result (λ text. HaveCards table.now collection.now.reports rows.now text.items) }
{
    let mut out = Vec::new(alloc);
    let mut place = 1u64;
    for row in rows {
        push_dealt(alloc, &mut out, collection, table, whole, place, row)?;
        place += 1;
    }
    out.extend_from_slice(b"end\n")?;
    Ok(out)
}

// The leaders, where each leader's runs are discarded.
fn leaders(alloc: Global, collection: &Collection, whole: &Numbers) -> Result<Seq<Listed>, Memory>
    requires { AreRecounts collection.now.branches (runs_of collection.now.reports) whole.now }
    ensures { IfOk result (IsElimination collection.now.branches Every (runs_of collection.now.reports)) }
{
    let start = whole.copy(alloc)?;
    elimination_from(alloc, collection, start, Policy::All)
}

/// The text of the cards of all leaders of the collection's runs, where each leader's runs are discarded. The runs are counted once for all cards.
pub fn cards(alloc: Global, collection: &Collection, table: &SiteTable) -> Result<Vec<u8>, Memory>
    requires { collection.now.branches ≡ branches_of table.now.sites }
    ensures { IfOk result (λ text. AreCardsOf table.now collection.now.reports text.items) }
{
    let _held = collection.reports_held();
    let whole = Numbers::of(alloc, collection, table)?;
    let rows = leaders(alloc, collection, &whole)?;
    let text = dealt(alloc, collection, table, &whole, rows.as_slice())?;
    Ok(text)
}
