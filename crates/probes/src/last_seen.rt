ghost use Rattle.std.specs.Prelude.{List, ◌≡◌, [], ◌++◌, ◌∷◌};
ghost use Rattle.cbi_base.specs.declared.observation.Observation.{Observation};
ghost use Rattle.probes.specs.Sites.{most_sites};
ghost use Rattle.probes.specs.LastSeen.{last_of, last_sites, last_seen_line};

use crate::log::Log;
use crate::sites::{MOST_SITES, sites_line};
use arrayvec::ArrayVec;
use cbi_base::{Memory, Observation};
use probe_base::Probe;
use std::alloc::Global;
use std::marker::Model;

/// Says which sites were observed last. Of what it was told it keeps these sites alone, oldest first.
#[derive(Drop)]
pub struct LastSeen {
    log: Log,
    sites: ArrayVec<u32, MOST_SITES>,
}

impl Model for LastSeen {
    ghost use Rattle.std.specs.Prelude.{◌≡◌, List};
    ghost use Rattle.cbi_base.specs.declared.observation.Observation.{Observation};
    ghost use Rattle.probes.specs.LastSeen.{last_sites};

    ghost Value = { List Observation };

    ghost view = { λ p. p.log.observations };

    ghost invariant = { λ p. p.sites.items ≡ last_sites p.log.observations };
}

impl LastSeen {
    /// Nothing is observed yet.
    pub fn new(_alloc: Global) -> LastSeen
        ensures { result ≡ [] }
    {
        LastSeen {
            log: Log::new(),
            sites: ArrayVec::new(),
        }
    }
}

/// Adds a site behind those before. Where there is no room the oldest makes way.
#[inline]
fn add_last(sites: &mut ArrayVec<u32, MOST_SITES>, site: u32)
    ensures { sites.new.items ≡ last_of most_sites (sites.old.items ++ site ∷ []) }
{
    if sites.is_full() {
        sites.remove(0);
    }
    sites.push(site);
}

/// Adds the sites of several observations, in order: of those that there is room for together.
fn add_lasts(sites: &mut ArrayVec<u32, MOST_SITES>, observations: &[Observation])
    ensures { (seen : List Observation) → sites.old.items ≡ last_sites seen → sites.new.items ≡ last_sites (seen ++ observations.now) }
{
    let latest = &observations[observations.len().saturating_sub(MOST_SITES)..];
    for observation in latest {
        add_last(sites, observation.site);
    }
}

impl Probe for LastSeen {
    ghost seen = { λ p. p };

    ghost line_text = { λ p. last_seen_line p };

    fn see(&mut self, observation: Observation) -> Result<(), Memory> {
        add_last(&mut self.sites, observation.site);
        self.log = self.log.with(&observation);
        Ok(())
    }

    fn see_several(&mut self, observations: &[Observation]) -> Result<(), Memory> {
        add_lasts(&mut self.sites, observations);
        self.log = self.log.with_several(observations);
        Ok(())
    }

    fn line(&self, text: &mut Vec<u8>) -> Result<(), Memory> {
        let alloc = *text.allocator();
        let line = sites_line(alloc, b"last".as_slice(), self.sites.as_slice())?;
        text.extend_from_slice(line.as_slice())?;
        Ok(())
    }
}
