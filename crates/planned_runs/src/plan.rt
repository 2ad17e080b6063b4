ghost use Rattle.std.specs.Prelude.{◌≡◌, ◌≤◌, ℕ, List, Option, IsSome, length, IfOk, IfErr};
ghost use Rattle.cbi_base.specs.Words.{CountHasRisen, Held};
ghost use Rattle.cbi_base.specs.declared.refusal.Refusal.{Refusal};
ghost use Rattle.command_base.specs.Faults.{HasCause, IfReadFault, IfFilesRead};
ghost use Rattle.command_base.specs.Names.{IsOneOf, IsFirstMissing, AreHeld};
ghost use Rattle.planned_runs.specs.declared.input.RunInput.{RunInput};

use crate::input::RunInput;
use cbi_base::Store;
use command_base::Fault;
use std::alloc::Global;

/// A plan that gives each number its bank and its input.
pub trait RunPlan {
    /// The plan has a run with this number.
    ghost covers: { Self → ℕ → Type 0 };

    /// What is read for the run with this number, in this order.
    ghost names: { Self → ℕ → List (List ℕ) };

    /// What the run is made on, by what the store holds.
    ghost gives: { Self → Option Held → ℕ → RunInput → Type 0 };

    /// Why there is none.
    ghost refuses: { Self → Option Held → ℕ → Refusal → Type 0 };

    /// What the run with this number is made on. An input has at most 16,777,216 bytes.
    fn give<S: Store>(&self, alloc: Global, store: &mut S, number: u32) -> Result<RunInput, Fault>
        requires { covers self.now number }
        ensures given { IfOk result (gives self.now (S.holds store.old) number) }
        ensures fits { IfOk result (λ on. length on.input ≤ 16777216) }
        ensures was_held { IfFilesRead result (AreHeld (S.holds store.old) (names self.now number)) }
        ensures fault { IfErr result (λ e. HasCause e
            (λ name. IsOneOf (names self.now number) name × CountHasRisen (S.read_faults store.old) (S.read_faults store.new)) ⊥
            (refuses self.now (S.holds store.old) number)) }
        ensures missing { S.is_sound store.old → IfErr result (λ e. IfReadFault e (IsFirstMissing (S.holds store.old) (names self.now number))) }
        ensures held { S.holds store.new ≡ S.holds store.old }
        ensures writes { S.write_faults store.new ≡ S.write_faults store.old }
        ensures never_falls { S.read_faults store.old ≤ S.read_faults store.new }
        ensures sound { S.is_sound store.old → S.is_sound store.new }
        ensures sound_count { S.is_sound store.old → AreHeld (S.holds store.old) (names self.now number) → S.read_faults store.new ≡ S.read_faults store.old };

    /// Of a store that tells what it holds, a number is given one thing.
    ghost once: { (plan : Self) (held : Option Held) (number : ℕ) (a b : RunInput) → IsSome held → gives plan held number a
        → gives plan held number b → a ≡ b };

    /// And none that is refused is given anything.
    ghost apart: { (plan : Self) (held : Option Held) (number : ℕ) (on : RunInput) (refusal : Refusal) → IsSome held → gives plan held number on
        → refuses plan held number refusal → ⊥ };
}
