//! That each call of the top call is one as the laws of calls take it, on a function without a body.
ghost use Rattle.std.specs.Prelude.{List};
ghost use Rattle.cbi_base.specs.declared.observation.Observation.{Observation};
ghost use Rattle.cbi_messages.specs.Told.{IsToldOn};
ghost use Rattle.executable.specs.Call.{MakesACall};

use cbi_base::Sink;

/// What `top_call::cbi` says at its end, over a store that tells what it holds and an out that tells what it has taken, makes a call as the laws of this crate
/// take it: by its words, what the store held before it and holds after it, what out took in it, and its status; whatever type its watchers and err have.
pub fn each_call_is_one<W, E: Sink>()
    ensures { (seen : W → List Observation) (err_before err_after : E) → MakesACall seen (IsToldOn E.faults E.taken err_before err_after) }
{}
