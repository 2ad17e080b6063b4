ghost use Rattle.std.specs.Prelude.{◌≡◌, ◌<◌, ◌≤◌, ◌+◌, ◌*◌, ◌^◌, [], ◌++◌, ◌∷◌, ℕ, List, length, take, slice_index, vec_len};
ghost use Rattle.std.specs.Prelude.{None, Some, IfOk, OnOk, OnErr};
ghost use Rattle.cbi_base.specs.declared.observation.Observation.{Observation};
ghost use Rattle.probes.specs.Sites.{sites_seen};
ghost use Rattle.probes.specs.Hottest.{hottest_of, best_of, hottest_line, count_line, hotter_site, times_of, AreCounted, IsHottest};

use crate::log::Log;
use crate::sites::push_number;
use cbi_base::{Memory, Observation};
use probe_base::Probe;
use std::alloc::Global;
use std::marker::Model;

/// Says which site was observed most often. Of what it was told it keeps how often each site was: the place of a count is the site's number. A count
/// that is full begins again at zero, and then the site stands once more among those that were carried.
#[derive(Drop)]
pub struct Hottest {
    log: Log,
    counts: Vec<u64>,
    carried: Vec<u32>,
}

impl Model for Hottest {
    ghost use Rattle.std.specs.Prelude.{List};
    ghost use Rattle.cbi_base.specs.declared.observation.Observation.{Observation};
    ghost use Rattle.probes.specs.Sites.{sites_seen};
    ghost use Rattle.probes.specs.Hottest.{AreCounted};

    ghost Value = { List Observation };

    ghost view = { λ p. p.log.observations };

    ghost invariant = { λ p. AreCounted p.counts.items p.carried.items (sites_seen p.log.observations) };
}

impl Hottest {
    /// Nothing is observed yet.
    pub fn new(alloc: Global) -> Hottest
        ensures { result ≡ [] }
    {
        Hottest {
            log: Log::new(),
            counts: Vec::new(alloc),
            carried: Vec::new(alloc),
        }
    }
}

/// Leaves the list as it is read, and so long that it has this place.
#[inline]
fn lengthen(counts: &mut Vec<u64>, place: usize) -> Result<(), Memory>
    requires { place < 2 ^ 32 }
    ensures there { OnOk result (place < vec_len counts.new) }
    ensures grown { vec_len counts.old ≤ vec_len counts.new }
    ensures few { vec_len counts.old ≤ 2 ^ 32 → vec_len counts.new ≤ 2 ^ 32 }
    ensures same { (other : ℕ) → slice_index counts.new.items other ≡ slice_index counts.old.items other }
{
    if counts.len() <= place {
        counts.resize(place + 1, 0)?;
    }
    Ok(())
}

/// Counts a site once more. After `Memory` each is counted as before.
#[inline]
fn count(counts: &mut Vec<u64>, carried: &mut Vec<u32>, site: u32) -> Result<(), Memory>
    ensures ok { OnOk result ((sites : List ℕ) → AreCounted counts.old.items carried.old.items sites
        → AreCounted counts.new.items carried.new.items (sites ++ site ∷ [])) }
    ensures memory { OnErr result ((sites : List ℕ) → AreCounted counts.old.items carried.old.items sites
        → AreCounted counts.new.items carried.new.items sites) }
{
    let place = site as usize;
    lengthen(counts, place)?;
    if counts[place] == u64::MAX {
        carried.push(site)?;
        counts[place] = 0;
        return Ok(());
    }
    counts[place] += 1;
    Ok(())
}

/// Counts the first of these observations, as long as each has a place and its count isn't full. Says how many.
fn count_listed(counts: &mut [u64], observations: &[Observation]) -> usize
    ensures few { result ≤ length observations.now }
    ensures len { length counts.new ≡ length counts.old }
    ensures counted { (carried : List ℕ) (seen : List Observation) → AreCounted counts.old carried (sites_seen seen)
        → AreCounted counts.new carried (sites_seen (seen ++ take result observations.now)) }
{
    for (i, observation) in observations.iter().enumerate() {
        let place = observation.site as usize;
        if place >= counts.len() || counts[place] == u64::MAX {
            return i;
        }
        counts[place] += 1;
    }
    observations.len()
}

impl Hottest {
    /// Sees the first of these, as long as that takes no memory. Says how many.
    fn see_listed(&mut self, observations: &[Observation]) -> usize
        ensures few { result ≤ length observations.now }
        ensures added { self.new ≡ self.old ++ take result observations.now }
    {
        let count = count_listed(self.counts.as_mut_slice(), observations);
        self.log = self.log.with_several(&observations[..count]);
        count
    }
}

/// How often a site was observed, from its count and the sites that were carried.
#[inline]
fn whole_count(count: u64, carried: &[u32], site: u32) -> u128
    ensures { result ≡ count + 2 ^ 64 * times_of carried.now site }
{
    let mut total = u128::from(count);
    for other in carried {
        if *other == site {
            total += 1 << 64;
        }
    }
    total
}

/// Whichever of the two sites was observed more often: the smaller one where that is as often.
fn hotter(best: Option<(u32, u128)>, site: u32, count: u128) -> Option<(u32, u128)>
    ensures { result ≡ hotter_site best (site, count) }
{
    match best {
        Some((other, most)) if most > count || (most == count && other < site) => best,
        _ => Some((site, count)),
    }
}

/// The site that was observed most often, the smallest among equals, and how often it was.
fn hottest_counted(counts: &[u64], carried: &[u32]) -> Option<(u32, u128)>
    requires { length counts.now ≤ 2 ^ 32 }
    ensures { (sites : List ℕ) → AreCounted counts.now carried.now sites → result ≡ best_of sites }
{
    let mut best = None;
    for (place, count) in counts.iter().enumerate() {
        let site = place as u32;
        let total = whole_count(*count, carried, site);
        if total != 0 {
            best = hotter(best, site, total);
        }
    }
    best
}

/// The line with this site and its count.
fn count_line(alloc: Global, best: Option<(u32, u128)>) -> Result<Vec<u8>, Memory>
    ensures { IfOk result (λ line. line.items ≡ count_line best) }
{
    let mut line = Vec::from_slice(alloc, b"hottest".as_slice())?;
    let Some((site, count)) = best else {
        line.extend_from_slice(b" none\n".as_slice())?;
        return Ok(line);
    };
    push_number(&mut line, u128::from(site))?;
    push_number(&mut line, count)?;
    line.push(b'\n')?;
    Ok(line)
}

impl Probe for Hottest {
    ghost seen = { λ p. p };

    ghost line_text = { λ p. hottest_line p };

    fn see(&mut self, observation: Observation) -> Result<(), Memory> {
        count(&mut self.counts, &mut self.carried, observation.site)?;
        self.log = self.log.with(&observation);
        Ok(())
    }

    fn see_several(&mut self, observations: &[Observation]) -> Result<(), Memory> {
        let mut added = 0;
        while added < observations.len() {
            added += self.see_listed(&observations[added..]);
            if added < observations.len() {
                self.see(observations[added])?;
                added += 1;
            }
        }
        Ok(())
    }

    fn line(&self, text: &mut Vec<u8>) -> Result<(), Memory> {
        let best = hottest_counted(self.counts.as_slice(), self.carried.as_slice());
        let line = count_line(*text.allocator(), best)?;
        text.extend_from_slice(line.as_slice())?;
        Ok(())
    }
}

/// A law: the site of the line was observed most often, no smaller one as often; and there is one where something was observed.
pub fn hottest_leads()
    ensures found { (sites : List ℕ) (site : ℕ) → hottest_of sites ≡ Some site → IsHottest sites site }
    ensures only { (sites : List ℕ) (site : ℕ) → IsHottest sites site → hottest_of sites ≡ Some site }
    ensures none { (sites : List ℕ) → hottest_of sites ≡ None → sites ≡ [] }
{}
