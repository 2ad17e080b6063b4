//! The plans by which a text is compiled.
ghost use Rattle.flow.specs.Sites.{MayPart};
ghost use Rattle.compiler.specs.Planned.{part_in};

use crate::sited::schemes_of;
use compiler::Plan;
use flow::Part;

/// The program that observes each visit of these schemes.
pub(crate) fn full(schemes: &str) -> Plan
    ensures { MayPart (part_in result) }
{
    Plan::Full {
        schemes: schemes_of(schemes),
        part: None,
    }
}

/// The program that observes the sampled ones of these visits.
pub(crate) fn sampled(schemes: &str) -> Plan
    ensures { MayPart (part_in result) }
{
    Plan::Sampled {
        schemes: schemes_of(schemes),
        part: None,
    }
}

/// The part of so many with this index, if it is one.
fn part_of(index: u32, count: u32) -> Option<Part>
    ensures { MayPart result }
{
    if index < count && count <= 65536 {
        Some(Part { index, count })
    } else {
        None
    }
}

/// The programs with this part of these sites, of which one observes each visit, and one the sampled visits.
pub(crate) fn parted(schemes: &str, index: u32, count: u32) -> (Plan, Plan)
    ensures full { MayPart (part_in result.0) }
    ensures sampled { MayPart (part_in result.1) }
{
    let schemes = schemes_of(schemes);
    let part = part_of(index, count);
    (
        Plan::Full { schemes, part },
        Plan::Sampled { schemes, part },
    )
}
