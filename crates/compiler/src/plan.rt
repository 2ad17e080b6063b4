ghost use Rattle.std.specs.Prelude.{◌≡◌};
ghost use Rattle.compiler.specs.Planned.{part_in, schemes_of};

use flow::{Part, Schemes};

/// What a text is compiled to.
#[derive(Clone, Copy, Debug, PartialEq, Eq)]
pub enum Plan {
    /// A program without sites.
    Plain,
    /// The program that looks at each visit of a site of these schemes, or of a part of these sites.
    Full {
        schemes: Schemes,
        part: Option<Part>,
    },
    /// The program that looks at those of these visits that a bank of countdowns samples (PLDI 2003 section 2).
    Sampled {
        schemes: Schemes,
        part: Option<Part>,
    },
}

/// The schemes whose sites the program has.
pub fn schemes_of(plan: Plan) -> Schemes
    ensures { result ≡ schemes_of plan }
{
    match plan {
        Plan::Plain => Schemes {
            branches: false,
            returns: false,
            pairs: false,
        },
        Plan::Full { schemes, .. } | Plan::Sampled { schemes, .. } => schemes,
    }
}

/// The part of the sites that the program has, where it hasn't all of them.
pub fn part_in(plan: Plan) -> Option<Part>
    ensures { result ≡ part_in plan }
{
    match plan {
        Plan::Plain => None,
        Plan::Full { part, .. } | Plan::Sampled { part, .. } => part,
    }
}
