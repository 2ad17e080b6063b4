ghost use Rattle.std.specs.Prelude.{◌≡◌, ◌<◌, ◌^◌, ℕ, length, slice_index, All, IfOk};
ghost use Rattle.collector.specs.Sites.{branches_of};
ghost use Rattle.elimination_tallies.specs.Predicates.{predicates_in};
ghost use Rattle.elimination_tallies.specs.Recount.{runs_of};
ghost use Rattle.compound_counts.specs.Numbers.{numbers_at};
ghost use Rattle.compound_counts.specs.Truth.{pair_recount};

use crate::watch::{Watch, rows_of};
use cbi_base::Memory;
use collector::Collection;
use compound_bits::{FactRow, count_both};
use elimination::TallyTable;
use flow::SiteTable;
use fractions::Tally;
use std::alloc::Global;
use std::marker::Model;

/// The facts of several predicates over the runs of a collection. Contracts see it as the rows of these, over the failing and over the successful runs.
#[derive(Drop)]
pub struct PairCounter {
    failing: Vec<FactRow>,
    successful: Vec<FactRow>,
}

impl Model for PairCounter {
    ghost use Rattle.compound_counts.specs.Numbers.{AreBoth, PairFacts};

    ghost Value = { PairFacts };

    ghost view = { λ c. record { failing = c.failing.items; successful = c.successful.items } };

    ghost invariant = { λ c. AreBoth c.failing.items c.successful.items };
}

impl PairCounter {
    /// The facts of these predicates. The table of tallies is asked which site is a predicate's own, and what an entry says of it.
    pub fn new(
        alloc: Global,
        collection: &Collection,
        table: &SiteTable,
        tallies: &TallyTable,
        predicates: &[u32],
    ) -> Result<PairCounter, Memory>
        requires table { collection.now.branches ≡ branches_of table.now.sites }
        requires branches { tallies.now.branches ≡ collection.now.branches }
        requires predicates { All (λ p. p < predicates_in tallies.now.branches) predicates.now }
        requires few { length predicates.now < 2 ^ 32 }
        ensures count { IfOk result (λ c. length c.failing ≡ length predicates.now) }
        ensures numbers { IfOk result (λ c. (i j : ℕ) → i < length predicates.now → j < length predicates.now
            → numbers_at c i j ≡ pair_recount tallies.now.branches (runs_of collection.now.reports) (slice_index predicates.now i)
            (slice_index predicates.now j)) }
    {
        collection.keeps();
        let watch = Watch::new(alloc, table, tallies, predicates)?;
        let failing = rows_of(alloc, collection, &watch, tallies, true)?;
        let successful = rows_of(alloc, collection, &watch, tallies, false)?;
        Ok(PairCounter {
            failing,
            successful,
        })
    }

    /// The numbers of the pair of the predicates at two places.
    pub fn tally(&self, left: usize, right: usize) -> Tally
        requires left { left < length self.now.failing }
        requires right { right < length self.now.failing }
        ensures { result ≡ numbers_at self.now left right }
    {
        let (a, c) = count_both(&self.failing[left], &self.failing[right]);
        let (b, d) = count_both(&self.successful[left], &self.successful[right]);
        Tally { a, b, c, d }
    }
}
