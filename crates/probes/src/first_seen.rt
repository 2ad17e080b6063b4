ghost use Rattle.std.specs.Prelude.{◌↔◌, ℕ, List, Contains, ◌≡◌, ◌≤◌, [], ◌++◌, ◌∷◌};
ghost use Rattle.cbi_base.specs.declared.observation.Observation.{Observation};
ghost use Rattle.probes.specs.FirstSeen.{firsts_of, first_of, first_sites, first_line};
ghost use Rattle.probes.specs.Hottest.{times_of};

use crate::log::Log;
use crate::sites::{MOST_SITES, sites_line};
use arrayvec::ArrayVec;
use cbi_base::{Memory, Observation};
use probe_base::Probe;
use std::alloc::Global;
use std::marker::Model;

/// Says which sites were observed first. Of what it was told it keeps these sites alone.
#[derive(Drop)]
pub struct FirstSeen {
    log: Log,
    sites: ArrayVec<u32, MOST_SITES>,
}

impl Model for FirstSeen {
    ghost use Rattle.std.specs.Prelude.{◌≡◌, List};
    ghost use Rattle.cbi_base.specs.declared.observation.Observation.{Observation};
    ghost use Rattle.probes.specs.FirstSeen.{first_sites};

    ghost Value = { List Observation };

    ghost view = { λ p. p.log.observations };

    ghost invariant = { λ p. p.sites.items ≡ first_sites p.log.observations };
}

impl FirstSeen {
    /// Nothing is observed yet.
    pub fn new(_alloc: Global) -> FirstSeen
        ensures { result ≡ [] }
    {
        FirstSeen {
            log: Log::new(),
            sites: ArrayVec::new(),
        }
    }
}

/// Adds a site behind those before, if it isn't among them and there is room.
#[inline]
fn add_first(sites: &mut ArrayVec<u32, MOST_SITES>, site: u32)
    ensures { (seen : List ℕ) → sites.old.items ≡ first_of seen → sites.new.items ≡ first_of (seen ++ site ∷ []) }
{
    if sites.is_full() || sites.as_slice().contains(&site) {
        return;
    }
    sites.push(site);
}

/// Adds the sites of several observations, in order. Once the list is full there is nothing to do.
fn add_firsts(sites: &mut ArrayVec<u32, MOST_SITES>, observations: &[Observation])
    ensures { (seen : List Observation) → sites.old.items ≡ first_sites seen → sites.new.items ≡ first_sites (seen ++ observations.now) }
{
    if sites.is_full() {
        return;
    }
    for observation in observations {
        add_first(sites, observation.site);
    }
}

impl Probe for FirstSeen {
    ghost seen = { λ p. p };

    ghost line_text = { λ p. first_line p };

    fn see(&mut self, observation: Observation) -> Result<(), Memory> {
        add_first(&mut self.sites, observation.site);
        self.log = self.log.with(&observation);
        Ok(())
    }

    fn see_several(&mut self, observations: &[Observation]) -> Result<(), Memory> {
        add_firsts(&mut self.sites, observations);
        self.log = self.log.with_several(observations);
        Ok(())
    }

    fn line(&self, text: &mut Vec<u8>) -> Result<(), Memory> {
        let alloc = *text.allocator();
        let line = sites_line(alloc, b"first".as_slice(), self.sites.as_slice())?;
        text.extend_from_slice(line.as_slice())?;
        Ok(())
    }
}

/// Laws: the first sites are those that were observed, each once; and sites that are observed later leave them in their places.
pub fn first_sites_in_order()
    ensures observed { (sites : List ℕ) (site : ℕ) → Contains sites site ↔ Contains (firsts_of sites) site }
    ensures once { (sites : List ℕ) (site : ℕ) → times_of (firsts_of sites) site ≤ 1 }
    ensures stays { (sites later : List ℕ) → (more : List ℕ) × (firsts_of (sites ++ later) ≡ firsts_of sites ++ more) }
{}
