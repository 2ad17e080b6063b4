ghost use Rattle.std.specs.Prelude.{◌≡◌, ◌<◌, ◌≤◌, IfOk};
ghost use Rattle.flow.specs.declared.node.View.TheVariants as view;
ghost use Rattle.flow.specs.Fits.{IsLater};
ghost use Rattle.machine_looks.specs.Force.{force_in, set_countdown};
ghost use Rattle.machine_looks.specs.Steps.{ViewFollows, NearsItsEnd, IsRunning, most_counted};

use crate::look::look;
use crate::state::State;
use cbi_base::{Observation, Trap};
use machine_code::Prepared;
use machine_rows::Stop;

/// The countdown in force: the running function's copy, or the shared one.
#[inline(always)]
pub fn in_force(state: &State<'_>) -> u32
    ensures { result ≡ force_in state.entry.now }
{
    match state.copy {
        Some(copy) => copy,
        None => state.countdown,
    }
}

/// Sets the countdown in force.
#[inline(always)]
pub fn set_force(state: &mut State<'_>, count: u32)
    ensures { state.new ≡ set_countdown state.old.copy count state.old }
{
    match state.copy {
        Some(_) => state.copy = Some(count),
        None => state.countdown = count,
    }
}

/// Lowers the countdown to a number above zero.
#[inline(always)]
#[tactic(auto, unfolding(flow::specs::Machine::next_of))]
pub fn skip(
    program: &Prepared<'_>,
    state: &mut State<'_>,
    place: u32,
    by: u32,
    next: u32,
) -> Result<u32, Stop>
    requires { IsLater place next }
    ensures next { ViewFollows program.now (view.Skips by next) place state.old result state.new }
    ensures nearer { NearsItsEnd place state.old result state.new }
    ensures running { IsRunning program.now state.old → IsRunning program.now state.new }
{
    let force = in_force(state);
    if force <= by {
        return Err(Stop::from(Trap::Internal));
    }
    set_force(state, force - by);
    Ok(next)
}

/// Goes to the fast copy where the countdown is greater than the weight, and else to the slow one.
#[inline(always)]
#[tactic(auto, unfolding(flow::specs::Machine::next_of))]
pub fn pick(
    program: &Prepared<'_>,
    state: &mut State<'_>,
    place: u32,
    weight: u32,
    fast: u32,
    slow: u32,
) -> Result<u32, Stop>
    requires to_fast { IsLater place fast }
    requires to_slow { IsLater place slow }
    requires fast_fits { state.old.work.fast < most_counted }
    requires slow_fits { state.old.work.slow < most_counted }
    ensures next { ViewFollows program.now (view.Picks weight fast slow) place state.old result state.new }
    ensures nearer { NearsItsEnd place state.old result state.new }
    ensures running { IsRunning program.now state.old → IsRunning program.now state.new }
{
    if in_force(state) > weight {
        state.work.fast += 1;
        return Ok(fast);
    }
    state.work.slow += 1;
    Ok(slow)
}

/// The running function takes a copy of the shared countdown.
#[inline(always)]
#[tactic(auto, unfolding(flow::specs::Machine::next_of))]
pub fn import(
    program: &Prepared<'_>,
    state: &mut State<'_>,
    place: u32,
    next: u32,
) -> Result<u32, Stop>
    requires { IsLater place next }
    ensures next { ViewFollows program.now (view.Imports next) place state.old result state.new }
    ensures nearer { NearsItsEnd place state.old result state.new }
    ensures running { IsRunning program.now state.old → IsRunning program.now state.new }
    ensures goes { IfOk result (λ to. to ≡ next) }
    ensures kept { state.new ≡ record state.old { copy = state.new.copy } }
{
    state.copy = Some(state.countdown);
    Ok(next)
}

/// The running function gives its copy of the countdown back.
#[inline(always)]
#[tactic(auto, unfolding(flow::specs::Machine::next_of))]
pub fn export(
    program: &Prepared<'_>,
    state: &mut State<'_>,
    place: u32,
    next: u32,
) -> Result<u32, Stop>
    requires { IsLater place next }
    ensures next { ViewFollows program.now (view.Exports next) place state.old result state.new }
    ensures nearer { NearsItsEnd place state.old result state.new }
    ensures running { IsRunning program.now state.old → IsRunning program.now state.new }
    ensures goes { IfOk result (λ to. to ≡ next) }
    ensures kept { state.new ≡ record state.old { copy = state.new.copy; countdown = state.new.countdown } }
{
    let Some(copy) = state.copy else {
        return Err(Stop::from(Trap::Internal));
    };
    state.countdown = copy;
    state.copy = None;
    Ok(next)
}

/// Looks at a site.
#[inline(always)]
#[tactic(auto, unfolding(flow::specs::Machine::next_of))]
pub fn mark(
    program: &Prepared<'_>,
    state: &mut State<'_>,
    place: u32,
    site: u32,
    next: u32,
) -> Result<u32, Stop>
    requires { IsLater place next }
    ensures next { ViewFollows program.now (view.Marks site next) place state.old result state.new }
    ensures nearer { NearsItsEnd place state.old result state.new }
    ensures running { IsRunning program.now state.old → IsRunning program.now state.new }
{
    let seen = look(program.program(), &state.now, site)?;
    Err(Stop::Sees {
        observation: Observation { site, seen },
        draws: false,
        next,
    })
}

/// Lowers the countdown by one, and looks at a site where it is then zero.
#[inline(always)]
#[tactic(auto, unfolding(flow::specs::Machine::next_of))]
pub fn test(
    program: &Prepared<'_>,
    state: &mut State<'_>,
    place: u32,
    site: u32,
    next: u32,
) -> Result<u32, Stop>
    requires ahead { IsLater place next }
    requires fits { state.old.work.tests < most_counted }
    ensures next { ViewFollows program.now (view.Tests site next) place state.old result state.new }
    ensures nearer { NearsItsEnd place state.old result state.new }
    ensures running { IsRunning program.now state.old → IsRunning program.now state.new }
{
    let count = in_force(state).saturating_sub(1);
    state.work.tests += 1;
    set_force(state, count);
    if count > 0 {
        return Ok(next);
    }
    let seen = look(program.program(), &state.now, site)?;
    Err(Stop::Sees {
        observation: Observation { site, seen },
        draws: true,
        next,
    })
}
