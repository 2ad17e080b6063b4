ghost use Rattle.std.specs.Prelude.{◌≡◌, ◌<◌, ◌≤◌, ◌+◌, ◌∷◌, [], None, Some, length, drop, OnOk, slice_get};
ghost use Rattle.std.specs.Option.{option_map};
ghost use Rattle.flow.specs.declared.node.View.TheVariants as view;
ghost use Rattle.flow.specs.Words.{ended_with, has_result, run_ended, callee_of, IsLater, node_limit, local_limit, IsProgram};
ghost use Rattle.flow.specs.State as machine;
ghost use Rattle.cbi_base.specs.Limits.{active_limit};
ghost use Rattle.machine_steps.specs.Entering.{IsEntered, IsArrival};
ghost use Rattle.machine_rows.specs.Operands.{several_on};
ghost use Rattle.machine_code.specs.Prepared.{nodes_of};
ghost use Rattle.machine_looks.specs.Steps.{ViewFollows, NearsItsEnd, IsRunning, frame_pushed, resumed_at, Enters, IsEntry, IfRunGoesOn};

use c_store::{Made, Objects, Word};
use cbi_base::{Kind, Memory, Outcome, Scalar, Trap};
use flow::{Function, Node};
use machine_code::{Prepared, Stride};
use machine_looks::{Frame, State};
use machine_rows::{Locals, Now, Stop};

/// The most functions that are active at a time.
const ACTIVE_LIMIT: u32 = 512;

/// A function of the program.
#[inline(always)]
pub fn function_of<'a>(program: &'a Prepared<'_>, number: u32) -> Option<&'a Function>
    ensures value { option_map (λ f. f.now) result ≡ slice_get program.now.functions number }
    ensures is_program { IsProgram program.now }
{
    program.program().functions().get(number as usize)
}

/// The nodes of a function.
#[inline(always)]
pub fn nodes_of<'a>(program: &'a Prepared<'_>, number: u32) -> &'a [Node]
    ensures { result.now ≡ nodes_of (slice_get program.now.functions number) }
{
    match function_of(program, number) {
        None => &[],
        Some(function) => function.nodes.as_slice(),
    }
}

/// Whether a function has a result.
#[inline(always)]
fn has_result(program: &Prepared<'_>, number: u32) -> bool
    ensures { result ≡ has_result (callee_of (slice_get program.now.functions number)) }
{
    match function_of(program, number) {
        None => false,
        Some(function) => function.value,
    }
}

/// Makes the objects of a function's locals, unless too many functions are active.
#[inline(always)]
pub fn make_locals(
    objects: &mut Objects,
    active: u32,
    sizes: &[u32],
    arguments: &[Word],
) -> Result<Locals, Stop>
    requires { length sizes.now ≤ local_limit }
    ensures { IsEntered sizes.now arguments.now active objects.old result objects.new }
{
    if active >= ACTIVE_LIMIT {
        return Err(Stop::from(Trap::StackOverflow));
    }
    match objects.make_locals(arguments, sizes)? {
        Made::Full => Err(Stop::from(Trap::StackOverflow)),
        Made::Object { number } => Ok(Locals::new(number, sizes.len() as u32)),
    }
}

/// Takes so many arguments, and makes the objects of a function's locals with them.
#[inline(always)]
fn take_arguments(
    now: &mut Now<'_>,
    active: u32,
    params: u32,
    sizes: &[u32],
) -> Result<Locals, Stop>
    requires { length sizes.now ≤ local_limit }
    ensures arrival { IsArrival (several_on params now.old.operands.top) sizes.now active now.old.objects result now.new.objects }
    ensures left { OnOk result (now.new ≡ record now.old
        { operands = record now.old.operands { top = drop params now.old.operands.top }; objects = now.new.objects }) }
    ensures output { now.new.output ≡ now.old.output }
{
    let arguments = now.operands.several(params)?;
    let locals = make_locals(&mut now.objects, active, sizes, arguments)?;
    now.operands.drop_last(params as usize);
    Ok(locals)
}

/// The running function waits, and will go on at this node.
#[inline(always)]
fn wait(state: &mut State<'_>, next: u32) -> Result<(), Memory>
    ensures { OnOk result (state.new ≡ frame_pushed next state.old) }
{
    state.now.operands.open()?;
    state.below.push(Frame {
        function: state.function,
        node: next,
        locals: state.now.locals,
        copy: state.copy,
    })
}

/// A function runs that has these nodes, with their strides, and these locals, without a copy of the countdown.
#[inline(always)]
pub fn stand<'a>(
    state: &mut State<'a>,
    number: u32,
    nodes: &'a [Node],
    strides: &'a [Stride],
    locals: Locals,
)
    requires { state.old.active < active_limit }
    ensures { state.new ≡ record state.old {
      function = number;
      nodes = nodes.entry;
      strides = strides.entry;
      now = record state.old.now
          { locals = locals };
      copy = None;
      active = state.old.active + 1;
    } }
{
    state.function = number;
    state.nodes = nodes;
    state.strides = strides;
    state.now.locals = locals;
    state.copy = None;
    state.active += 1;
}

/// Takes a function's arguments, and enters it.
#[tactic(auto, using(crate::proofs::CallLemmas::few_locals))]
fn enter<'a>(
    program: &'a Prepared<'a>,
    state: &mut State<'a>,
    number: u32,
    next: u32,
) -> Result<u32, Stop>
    ensures next { Enters program.entry.now number next state.old result state.new }
    ensures more { IsEntry next state.old result state.new }
    ensures running { IfRunGoesOn result (IsRunning program.entry.now state.new) }
{
    let Some(function) = function_of(program, number) else {
        return Err(Stop::from(Trap::Internal));
    };
    let active = state.active;
    let locals = take_arguments(
        &mut state.now,
        active,
        function.params,
        function.locals.as_slice(),
    )?;
    wait(state, next)?;
    stand(
        state,
        number,
        function.nodes.as_slice(),
        program.strides(number),
        locals,
    );
    Ok(0)
}

/// Spends a turn, where one is left; takes a function's arguments, and enters it.
#[tactic(auto, unfolding(flow::specs::Machine::next_of))]
pub fn call<'a>(
    program: &'a Prepared<'a>,
    state: &mut State<'a>,
    place: u32,
    number: u32,
    next: u32,
) -> Result<u32, Stop>
    requires { IsLater place next }
    ensures next { ViewFollows program.entry.now (view.Calls number next) place state.old result state.new }
    ensures nearer { NearsItsEnd place state.old result state.new }
    ensures running { IsRunning program.entry.now state.old → IfRunGoesOn result (IsRunning program.entry.now state.new) }
{
    if state.turns == 0 {
        return Err(Stop::Over {
            outcome: Outcome::CutTurns,
        });
    }
    state.turns -= 1;
    enter(program, state, number, next)
}

/// The objects of the running function die, and the one that waits goes on.
#[inline(always)]
fn resume<'a>(program: &'a Prepared<'a>, state: &mut State<'a>, frame: Frame)
    ensures value { state.new ≡ resumed_at state.new.nodes state.new.strides frame state.old }
    ensures running { IsRunning program.entry.now state.new }
{
    let locals = state.now.locals;
    state
        .now
        .objects
        .kill_locals(locals.first(), locals.count());
    state.now.operands.close();
    state.function = frame.function;
    state.nodes = nodes_of(program, frame.function);
    state.strides = program.strides(frame.function);
    state.now.locals = frame.locals;
    state.copy = frame.copy;
    state.active = state.active.saturating_sub(1);
}

/// How the run is over where the first function is left with a value.
#[inline(always)]
fn end_with(value: Word) -> Outcome
    ensures { (s : machine.State) → ended_with value s ≡ run_ended result s }
{
    match value.scalar() {
        Scalar::Number {
            kind: Kind::Int,
            value,
        } => Outcome::Ended {
            status: value as i32,
        },
        _ => Outcome::Trapped {
            trap: Trap::Internal,
        },
    }
}

/// Takes a value, and leaves the running function with it.
#[inline(always)]
#[tactic(auto, unfolding(flow::specs::Machine::next_of))]
pub fn give<'a>(program: &'a Prepared<'a>, state: &mut State<'a>, place: u32) -> Result<u32, Stop>
    requires { place < node_limit }
    ensures next { ViewFollows program.entry.now view.Gives place state.old result state.new }
    ensures nearer { NearsItsEnd place state.old result state.new }
    ensures running { IsRunning program.entry.now state.old → IfRunGoesOn result (IsRunning program.entry.now state.new) }
{
    let value = state.now.take_any()?;
    if value.is_undefined() {
        return Err(Stop::from(Trap::Undefined));
    }
    if !has_result(program, state.function) {
        return Err(Stop::from(Trap::Internal));
    }
    let waiting = state.below.pop();
    let Some(frame) = waiting else {
        let outcome = end_with(value);
        return Err(Stop::Over { outcome });
    };
    let node = frame.node;
    resume(program, state, frame);
    state.now.push(value)?;
    Ok(node)
}

/// Leaves the running function, with an undefined value where it has a result.
#[inline(always)]
#[tactic(auto, unfolding(flow::specs::Machine::next_of))]
pub fn quit<'a>(program: &'a Prepared<'a>, state: &mut State<'a>, place: u32) -> Result<u32, Stop>
    requires { place < node_limit }
    ensures next { ViewFollows program.entry.now view.Quits place state.old result state.new }
    ensures nearer { NearsItsEnd place state.old result state.new }
    ensures running { IsRunning program.entry.now state.old → IfRunGoesOn result (IsRunning program.entry.now state.new) }
{
    let has_value = has_result(program, state.function);
    let waiting = state.below.pop();
    let Some(frame) = waiting else {
        return Err(Stop::from(Trap::Internal));
    };
    let node = frame.node;
    resume(program, state, frame);
    if has_value {
        state.now.push(Word::undefined())?;
    }
    Ok(node)
}
