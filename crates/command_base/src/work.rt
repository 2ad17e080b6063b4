ghost use Rattle.std.specs.Prelude.{◌≡◌, ◌≤◌, ℕ, List, Option, IfOk, IfErr, IsErrAnd, IsSome};
ghost use Rattle.cbi_base.specs.Words.{CountHasRisen, Held};
ghost use Rattle.cbi_base.specs.declared.refusal.Refusal.{Refusal};
ghost use Rattle.command_base.specs.declared.done.Done.{Done};
ghost use Rattle.command_base.specs.declared.done.Done.TheVariants.{Nothing};
ghost use Rattle.command_base.specs.Faults.{HasCause, LeftOnOut, IfReadFault, IfRefusal, IfFilesRead, Precedes};
ghost use Rattle.command_base.specs.Names.{AreHeld, IsFirstMissing, IsOneOf};
ghost use Rattle.command_base.specs.Outside.{TookDue};
ghost use Rattle.command_base.specs.Reading.{HasRead};

use crate::devices::put;
use crate::done::Done;
use crate::fault::Fault;
use cbi_base::{Sink, Store};
use std::alloc::Global;

/// The text that a command makes for out, and what it says on err when it is done.
#[derive(Debug, Drop)]
pub struct Made {
    pub text: Vec<u8>,
    pub said: Done,
}

/// A command that reads files and writes one text to out, by its words.
pub trait Work {
    /// What the words keep within.
    ghost may: { Self → Type 0 } = { λ _. Unit {0} };

    /// The names that are read, in this order.
    ghost names: { Self → List (List ℕ) };

    /// The text that is due, by what the store holds.
    ghost due: { Self → Option Held → List ℕ → Type 0 };

    /// The text that is due where this is said of it.
    ghost due_said: { Self → Option Held → Done → List ℕ → Type 0 };

    /// What may be said of it.
    ghost says: { Self → Done → Type 0 } = { λ _ said. said ≡ Nothing };

    /// The bytes read are refused.
    ghost refused: { Self → Option Held → Type 0 };

    /// The refusal that is told of them.
    ghost refused_by: { Self → Option Held → Refusal → Type 0 };

    /// Reads the files, and makes the text.
    fn make<S: Store>(&self, alloc: Global, store: &mut S) -> Result<Made, Fault>
        requires { may self.now }
        ensures due { IfOk result (λ made. due self.now (S.holds store.old) made.text.items) }
        ensures due_said { IfOk result (λ made. due_said self.now (S.holds store.old) made.said made.text.items) }
        ensures said { IfOk result (λ made. says self.now made.said) }
        ensures was_refused { IfErr result (λ e. IfRefusal e (refused self.now (S.holds store.old))) }
        ensures is_refused { refused self.now (S.holds store.old) → IsSome (S.holds store.old) → IsErrAnd result Precedes }
        ensures read { HasRead S.holds S.read_faults S.write_faults S.is_sound store.old store.new
            (names self.now) (refused_by self.now (S.holds store.old)) result };
}

/// Does the work: makes its text, and then writes it to out.
pub fn do_work<W: Work, S: Store, O: Sink>(
    alloc: Global,
    work: &W,
    store: &mut S,
    out: &mut O,
) -> Result<Done, Fault>
    requires { W.may work.now }
    ensures took { IfOk result (λ said. TookDue (W.due_said work.now (S.holds store.old) said) (O.taken out.old) (O.taken out.new)) }
    ensures said { IfOk result (W.says work.now) }
    ensures fault { IfErr result (λ e. HasCause e
        (λ name. IsOneOf (W.names work.now) name × CountHasRisen (S.read_faults store.old) (S.read_faults store.new))
        (CountHasRisen (O.faults out.old) (O.faults out.new)) (W.refused_by work.now (S.holds store.old))) }
    ensures was_refused { IfErr result (λ e. IfRefusal e (W.refused work.now (S.holds store.old))) }
    ensures refused { W.refused work.now (S.holds store.old) → IsSome (S.holds store.old) → IsErrAnd result Precedes }

    // What is left after a fault, and which names were held.
    ensures left { IfErr result (λ e. LeftOnOut (W.due work.now (S.holds store.old)) e (O.taken out.old) (O.taken out.new)) }
    ensures was_held { IfFilesRead result (AreHeld (S.holds store.old) (W.names work.now)) }
    ensures missing { S.is_sound store.old → IfErr result (λ e. IfReadFault e (IsFirstMissing (S.holds store.old) (W.names work.now))) }
    ensures held { S.holds store.new ≡ S.holds store.old }
    ensures writes { S.write_faults store.new ≡ S.write_faults store.old }

    // No count falls, and devices that are sound stay so, with their counts.
    ensures reads_rise { S.read_faults store.old ≤ S.read_faults store.new }
    ensures out_rises { O.faults out.old ≤ O.faults out.new }
    ensures store_sound { S.is_sound store.old → S.is_sound store.new }
    ensures out_sound { O.is_sound out.old → O.is_sound out.new }
    ensures reads_stay { S.is_sound store.old → AreHeld (S.holds store.old) (W.names work.now) → S.read_faults store.new ≡ S.read_faults store.old }
    ensures out_stays { O.is_sound out.old → O.faults out.new ≡ O.faults out.old }
{
    let made = match work.make(alloc, store) {
        Ok(made) => made,
        Err(fault) => return Err(fault),
    };
    match put(out, made.text.as_slice()) {
        Ok(()) => Ok(made.said),
        Err(fault) => Err(fault),
    }
}
