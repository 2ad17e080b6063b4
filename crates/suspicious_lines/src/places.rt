ghost use Rattle.std.specs.Prelude.{◌≡◌, IfOk};
ghost use Rattle.suspicious_lines.specs.Places.{place_count};

use association::Suspect;
use cbi_base::Memory;
use indexmap::IndexSet;
use std::alloc::Global;

/// At how many places these suspects stand.
pub fn place_count(alloc: Global, suspects: &[Suspect]) -> Result<usize, Memory>
    ensures { IfOk result (λ count. count ≡ place_count suspects.now) }
{
    let mut places = IndexSet::new(alloc);
    for suspect in suspects {
        places.insert((suspect.function, suspect.line))?;
    }
    Ok(places.len())
}
