ghost use Rattle.std.specs.Prelude.{OnOk};
ghost use Rattle.affinity.specs.Listing.{IsOffered, IsPlaceOf};

use crate::neighbour::Neighbour;
use cbi_base::Memory;

/// How many are listed.
const MOST: usize = 5;

// The place behind those with at least this fall.
fn place_of(rows: &[Neighbour], fall: u64) -> usize
    ensures { IsPlaceOf fall rows.now result }
{
    for (place, row) in rows.iter().enumerate() {
        if row.fall < fall {
            return place;
        }
    }
    rows.len()
}

/// Lists one more: behind those with as great a fall, where that is one of the first five places.
pub fn offer(rows: &mut Vec<Neighbour>, next: Neighbour) -> Result<(), Memory>
    ensures { OnOk result (IsOffered next rows.old.items rows.new.items) }
{
    let place = place_of(rows.as_slice(), next.fall);
    rows.insert(place, next)?;
    rows.truncate(MOST);
    Ok(())
}
