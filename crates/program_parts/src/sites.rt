ghost use Rattle.std.specs.Prelude.{◌≡◌, ◌≤◌, length, IfOk};
ghost use Rattle.flow.specs.Words.{PartFits, site_limit};
ghost use Rattle.program_parts.specs.Part.{part_of};

use crate::part::has;
use cbi_base::{Memory, Seq};
use flow::{Part, Site};
use std::alloc::Global;

/// The sites of the part.
pub(crate) fn part_sites(alloc: Global, sites: Seq<Site>, part: Part) -> Result<Seq<Site>, Memory>
    requires part { PartFits part }
    requires few { length sites ≤ site_limit }
    ensures { IfOk result (λ kept. kept ≡ part_of part sites) }
{
    let mut rest = sites.into_vec();
    rest.reverse();
    let mut kept = Seq::new(alloc);
    let mut number = 0u32;
    while let Some(site) = rest.pop() {
        if has(part, number) {
            kept.push(site)?;
        }
        number += 1;
    }
    Ok(kept)
}
