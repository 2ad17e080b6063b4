ghost use Rattle.std.specs.Prelude.{◌≡◌, ◌≤◌, IfOk, OnOk, IfErr, IsErrAnd, IsNone, IsSome};
ghost use Rattle.cbi_base.specs.Faults.{CountHasRisen};
ghost use Rattle.command_base.specs.Faults.{WriteFaultOf, HasCause, IfReadFault, IfRefusal, Precedes, IfFilesRead};
ghost use Rattle.command_base.specs.Names.{IsOneOf, IsFirstMissing, AreHeld};
ghost use Rattle.command_base.specs.Outside.{outside_state, AllStayBut};
ghost use Rattle.command_base.specs.declared.done.Done.TheVariants.{Lines};
ghost use Rattle.command_run.specs.Files.{run_names};
ghost use Rattle.command_run.specs.Run.{LeftByRun, Ran, RunRefused, RunRefusedBy};

use crate::files::{look, read_files};
use crate::publish::publish;
use cbi_base::{Memory, Sink, Store};
use cbi_options::RunWords;
use command_base::{Done, Fault};
use machine::run;
use probes::Probe;
use std::alloc::Global;

/// Runs the program file on its input with its bank, tells each watcher what is observed, writes the output of the run to out, and then its report
/// under its name, where one is given.
pub fn run_file<S: Store, O: Sink>(
    alloc: Global,
    words: &RunWords,
    store: &mut S,
    out: &mut O,
    probes: &mut Vec<Box<dyn Probe>>,
) -> Result<Done, Fault>
    requires turns { words.now.turns ≤ 100000000 }
    requires run { 1 ≤ words.now.run }
    ensures ran { OnOk result (Ran (λ b. seen b) words.now
        (outside_state (S.holds store.old) (O.taken out.old) probes.old.items) (outside_state (S.holds store.new) (O.taken out.new) probes.new.items)) }
    ensures said { IfOk result (λ said. said ≡ Lines) }
    ensures fault { IfErr result (λ e. HasCause e
        (λ name. IsOneOf (run_names words.now) name × CountHasRisen (S.read_faults store.old) (S.read_faults store.new))
        (WriteFaultOf words.now.report (CountHasRisen (O.faults out.old) (O.faults out.new))
        (CountHasRisen (S.write_faults store.old) (S.write_faults store.new)))
        (RunRefusedBy words.now (S.holds store.old))) }
    ensures was_refused { IfErr result (λ e. IfRefusal e (RunRefused words.now (S.holds store.old))) }
    ensures refused { RunRefused words.now (S.holds store.old) → IsSome (S.holds store.old) → IsErrAnd result Precedes }

    // What is left after a fault, and which names were held.
    ensures left { IfErr result (λ e. LeftByRun (λ b. seen b) words.now e
        (outside_state (S.holds store.old) (O.taken out.old) probes.old.items) (outside_state (S.holds store.new) (O.taken out.new) probes.new.items)) }
    ensures was_held { IfFilesRead result (AreHeld (S.holds store.old) (run_names words.now)) }
    ensures missing { S.is_sound store.old → IfErr result (λ e. IfReadFault e (IsFirstMissing (S.holds store.old) (run_names words.now))) }
    ensures held { AllStayBut words.now.report (S.holds store.old) (S.holds store.new) }
    ensures no_write { IsNone words.now.report → S.write_faults store.new ≡ S.write_faults store.old }

    // No count falls, and devices that are sound stay so, with their counts.
    ensures reads_rise { S.read_faults store.old ≤ S.read_faults store.new }
    ensures writes_rise { S.write_faults store.old ≤ S.write_faults store.new }
    ensures out_rises { O.faults out.old ≤ O.faults out.new }
    ensures store_sound { S.is_sound store.old → S.is_sound store.new }
    ensures out_sound { O.is_sound out.old → O.is_sound out.new }
    ensures reads_stay { S.is_sound store.old → AreHeld (S.holds store.old) (run_names words.now) → S.read_faults store.new ≡ S.read_faults store.old }
    ensures writes_stay { S.is_sound store.old → S.write_faults store.new ≡ S.write_faults store.old }
    ensures out_stays { O.is_sound out.old → O.faults out.new ≡ O.faults out.old }
{
    let files = match read_files(alloc, store, words) {
        Ok(files) => files,
        Err(fault) => return Err(fault),
    };
    let (program, mut bank) = match look(alloc, &files) {
        Ok(loaded) => loaded,
        Err(fault) => return Err(fault),
    };
    let input = files.input.as_slice();
    let ran = match run(alloc, &program, input, &mut bank, words.turns, probes) {
        Ok(ran) => ran,
        Err(Memory) => return Err(Fault::Memory),
    };
    match publish(alloc, words, &files, &ran, store, out) {
        Ok(()) => Ok(Done::Lines),
        Err(fault) => Err(fault),
    }
}
