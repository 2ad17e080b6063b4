ghost use Rattle.std.specs.Prelude.{◌≡◌, IfOk};
ghost use Rattle.flow.specs.declared.node.View.TheVariants as view;
ghost use Rattle.flow.specs.Fits.{IsLater};
ghost use Rattle.machine_looks.specs.Steps.{ViewFollows, NearsItsEnd, IsRunning};

use cbi_base::{Outcome, Stack, Trap, Work};
use flow::Node;
use machine_code::{Prepared, Stride};
use machine_rows::{Locals, Now, Stop};

/// A function that waits for the one that it called: the node where it goes on, its locals, and its copy of the countdown.
#[derive(Clone, Copy)]
pub struct Frame {
    pub function: u32,
    pub node: u32,
    pub locals: Locals,
    pub copy: Option<u32>,
}

/// Where a run stands, but for its node: the running function, its nodes and their strides, the data, its copy of the countdown where it has one,
/// the functions that wait, the latest first, how many functions are active, the turns left, the shared countdown, and the work.
#[derive(Drop)]
pub struct State<'a> {
    pub function: u32,
    pub nodes: &'a [Node],
    pub strides: &'a [Stride],
    pub now: Now<'a>,
    pub copy: Option<u32>,
    pub below: Stack<Frame>,
    pub active: u32,
    pub turns: u32,
    pub countdown: u32,
    pub work: Work,
}

/// Takes a value, and goes on where its truth says.
#[inline(always)]
#[tactic(auto, unfolding(flow::specs::Machine::next_of))]
pub fn fork(
    program: &Prepared<'_>,
    state: &mut State<'_>,
    place: u32,
    yes: u32,
    no: u32,
) -> Result<u32, Stop>
    requires to_yes { IsLater place yes }
    requires to_no { IsLater place no }
    ensures next { ViewFollows program.now (view.Forks yes no) place state.old result state.new }
    ensures nearer { NearsItsEnd place state.old result state.new }
    ensures running { IsRunning program.now state.old → IsRunning program.now state.new }
{
    let holds = state.now.take_any()?.truth()?;
    if holds { Ok(yes) } else { Ok(no) }
}

/// Spends a turn, where one is left.
#[inline(always)]
#[tactic(auto, unfolding(flow::specs::Machine::next_of))]
pub fn again(
    program: &Prepared<'_>,
    state: &mut State<'_>,
    place: u32,
    next: u32,
) -> Result<u32, Stop>
    ensures next { ViewFollows program.now (view.Turns next) place state.old result state.new }
    ensures nearer { NearsItsEnd place state.old result state.new }
    ensures running { IsRunning program.now state.old → IsRunning program.now state.new }
    ensures goes { IfOk result (λ to. to ≡ next) }
    ensures kept { state.new ≡ record state.old { turns = state.new.turns } }
{
    if state.turns == 0 {
        return Err(Stop::Over {
            outcome: Outcome::CutTurns,
        });
    }
    state.turns -= 1;
    Ok(next)
}
