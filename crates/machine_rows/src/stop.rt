ghost use Rattle.std.specs.Prelude.{◌≡◌};
ghost use Rattle.cbi_base.specs.declared.outcome.Outcome.TheVariants.{Trapped};
ghost use Rattle.machine_rows.specs.declared.stop.Stop.TheVariants as stop;

use cbi_base::{Memory, Observation, Outcome, Trap};

/// Why a step doesn't just go on.
#[derive(Clone, Copy)]
pub enum Stop {
    /// The run is over.
    Over {
        outcome: Outcome,
    },
    /// A site was looked at: the watchers are told, then the next countdown is drawn where it is due, and the run goes on at this node.
    Sees {
        observation: Observation,
        draws: bool,
        next: u32,
    },
    /// Memory is wanting.
    Memory,
}

impl From<Trap> for Stop {
    ghost from_gives = { λ trap e. e ≡ stop.Over (Trapped trap) };

    #[inline(always)]
    fn from(trap: Trap) -> Stop {
        Stop::Over {
            outcome: Outcome::Trapped { trap },
        }
    }
}

impl From<Memory> for Stop {
    ghost from_gives = { λ _ e. e ≡ stop.Memory };

    #[inline(always)]
    fn from(_e: Memory) -> Stop {
        Stop::Memory
    }
}
