ghost use Rattle.std.specs.Prelude.{◌≡◌, ℕ, ◌+◌, ◌-◌, ◌<◌, ◌++◌, map, IfOk, OnOk};
ghost use Rattle.std.specs.List.{range_with_len};
ghost use Rattle.compound.specs.Pairs.{pairs_of};

use cbi_base::Memory;
use std::alloc::Global;

// Adds the pairs of a place and each later one of so many.
fn add_pairs(pairs: &mut Vec<(u32, u32)>, left: u32, count: u32) -> Result<(), Memory>
    requires { left < count }
    ensures { OnOk result (pairs.new.items ≡ pairs.old.items ++ map (λ (right : ℕ). (left, right)) (range_with_len (left + 1) (count - (left + 1)))) }
{
    for right in left + 1..count {
        pairs.push((left, right))?;
    }
    Ok(())
}

/// The pairs of so many places.
pub fn place_pairs(alloc: Global, count: u32) -> Result<Vec<(u32, u32)>, Memory>
    ensures { IfOk result (λ pairs. pairs.items ≡ pairs_of (range_with_len 0 count)) }
{
    let mut pairs = Vec::new(alloc);
    for left in 0..count {
        add_pairs(&mut pairs, left, count)?;
    }
    Ok(pairs)
}
