ghost use Rattle.std.specs.Prelude.{◌≡◌, ◌<◌, [], IfOk, OnOk};
ghost use Rattle.cbi_base.specs.Limits.{active_limit};
ghost use Rattle.machine_steps.specs.Begun.{EntersMain, RunBegins, IsFresh, LooksAtNone};
ghost use Rattle.machine_looks.specs.Steps.{IsRunning};

use crate::calls::{function_of, make_locals, stand};
use cbi_base::Trap;
use machine_code::Prepared;
use machine_looks::State;
use machine_rows::{Stop, make_first};
use std::alloc::Global as Heap;

/// Enters the main function.
fn enter_main<'a>(program: &'a Prepared<'a>, state: &mut State<'a>) -> Result<u32, Stop>
    requires none { state.old.now.operands.top ≡ [] }
    requires room { state.old.active < active_limit }
    ensures next { EntersMain program.entry.now state.old result state.new }
    ensures running { OnOk result (IsRunning program.entry.now state.new) }
    ensures work { state.new.work ≡ state.old.work }
    ensures same { OnOk result ((state.new.turns ≡ state.old.turns) × (state.new.below ≡ state.old.below)) }
    ensures entry { IfOk result (λ place. place ≡ 0) }
    ensures unseen { LooksAtNone result }
{
    let number = program.program().main();
    let Some(function) = function_of(program, number) else {
        return Err(Stop::from(Trap::Internal));
    };
    let active = state.active;
    let locals = make_locals(
        &mut state.now.objects,
        active,
        function.locals.as_slice(),
        &[],
    )?;
    stand(
        state,
        number,
        function.nodes.as_slice(),
        program.strides(number),
        locals,
    );
    Ok(0)
}

/// Begins a run: makes the objects that are there from the start, and enters the main function.
pub fn begin<'a>(alloc: Heap, program: &'a Prepared<'a>, state: &mut State<'a>) -> Result<u32, Stop>
    requires { IsFresh state.old }
    ensures next { RunBegins program.entry.now state.old result state.new }
    ensures running { OnOk result (IsRunning program.entry.now state.new) }
    ensures work { state.new.work ≡ state.old.work }
    ensures same { OnOk result ((state.new.turns ≡ state.old.turns) × (state.new.below ≡ [])) }
    ensures entry { IfOk result (λ place. place ≡ 0) }
    ensures unseen { LooksAtNone result }
{
    if !make_first(alloc, &mut state.now.objects, program.program())? {
        return Err(Stop::from(Trap::StackOverflow));
    }
    enter_main(program, state)
}
