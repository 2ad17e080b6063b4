ghost use Rattle.std.specs.Prelude.{◌≡◌, IfOk};
ghost use Rattle.sites.specs.Constants.{constants_of};

use crate::spots::Spot;
use cbi_base::Memory;
use indexmap::IndexSet;
use std::alloc::Global;

/// The distinct values of a body's constants, in order of first occurrence.
pub fn constants_of(alloc: Global, spots: &[Spot]) -> Result<IndexSet<i64>, Memory>
    ensures { IfOk result (λ values. values.keys ≡ constants_of spots.now) }
{
    let mut values = IndexSet::new(alloc);
    for spot in spots {
        if let Spot::Constant { value } = spot {
            values.insert(*value)?;
        }
    }
    Ok(values)
}
