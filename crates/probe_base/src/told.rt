ghost use Rattle.std.specs.Prelude.{◌≡◌, [], ◌∷◌, ◌++◌, OnOk, OnErr};
ghost use Rattle.std.specs.List.{flat_map};
ghost use Rattle.probe_base.specs.Told.{AllGrew, AllGrewByPrefix, GrewByPrefix};

use crate::probe::Probe;
use cbi_base::{Memory, Observation};

/// Tells one watcher several.
fn tell_one(probe: &mut Box<dyn Probe>, observations: &[Observation]) -> Result<(), Memory>
    ensures ok { OnOk result (seen probe.new ≡ seen probe.old ++ observations.now) }
    ensures memory { OnErr result (GrewByPrefix observations.now (seen probe.old) (seen probe.new)) }
{
    probe.see_several(observations)
}

/// Tells each of these watchers several, in order.
fn tell_each(probes: &mut [Box<dyn Probe>], observations: &[Observation]) -> Result<(), Memory>
    ensures ok { OnOk result (AllGrew (λ b. seen b) observations.now probes.old probes.new) }
    ensures memory { OnErr result (AllGrewByPrefix (λ b. seen b) observations.now probes.old probes.new) }
{
    for probe in probes.iter_mut() {
        tell_one(probe, observations)?;
    }
    Ok(())
}

/// Tells each watcher several observations, in order. After `Memory` each was told the first of them alone, or all.
pub fn tell_all(
    probes: &mut Vec<Box<dyn Probe>>,
    observations: &[Observation],
) -> Result<(), Memory>
    ensures ok { OnOk result (AllGrew (λ b. seen b) observations.now probes.old.items probes.new.items) }
    ensures memory { OnErr result (AllGrewByPrefix (λ b. seen b) observations.now probes.old.items probes.new.items) }
{
    tell_each(probes.as_mut_slice(), observations)
}

/// Appends one watcher's line.
fn push_line(probe: &Box<dyn Probe>, text: &mut Vec<u8>) -> Result<(), Memory>
    ensures ok { OnOk result (text.new.items ≡ text.old.items ++ line_text probe.now) }
    ensures memory { OnErr result (text.new.items ≡ text.old.items) }
{
    probe.line(text)
}

/// Appends each watcher's line, in order. After `Memory` the text is as before.
pub fn push_lines(probes: &Vec<Box<dyn Probe>>, text: &mut Vec<u8>) -> Result<(), Memory>
    ensures ok { OnOk result (text.new.items ≡ text.old.items ++ flat_map (λ b. line_text b) probes.now.items) }
    ensures memory { OnErr result (text.new.items ≡ text.old.items) }
{
    let mut lines = Vec::new(*text.allocator());
    for probe in probes {
        push_line(probe, &mut lines)?;
    }
    text.extend_from_slice(lines.as_slice())?;
    Ok(())
}
