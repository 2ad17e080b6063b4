ghost use Rattle.std.specs.Prelude.{◌≡◌, ◌≤◌, IfOk, IfErr, IsErrAnd, IsSome};
ghost use Rattle.cbi_base.specs.Faults.{CountHasRisen};
ghost use Rattle.collector.specs.Collecting.{IsCollection};
ghost use Rattle.collector.specs.Spelling.{collection_text};
ghost use Rattle.command_base.specs.Faults.{HasCause, IfAllRead, IfReadFault, IfRefusal, Precedes, IfFilesRead};
ghost use Rattle.command_base.specs.Names.{AreHeld};
ghost use Rattle.command_base.specs.Outside.{outside_state};
ghost use Rattle.command_base.specs.declared.done.Done.TheVariants.{Counted};
ghost use Rattle.command_runs.specs.Lists.{first_names};
ghost use Rattle.command_runs.specs.Runs.{AreRunsHeld, IsRunsMissing, IsRunsName, LeftByRuns, ListedRefused, ListedRefusedBy, RunsDone};

use crate::lists::look;
use crate::texts::read_texts;
use cbi_base::{Memory, Sink, Store};
use cbi_options::RunsWords;
use collector::write_collection;
use command_base::{Done, Fault, put};
use planned_runs::{PlannedRuns, run_planned};
use probes::Probe;
use program_file::program_id;
use std::alloc::Global;

/// The text of the collection of the runs, and what is said of so many.
fn told_of(alloc: Global, runs: u32, ran: &PlannedRuns) -> Result<(Vec<u8>, Done), Memory>
    ensures text { IfOk result (λ told. told.0.items ≡ collection_text ran.now.collection) }
    ensures said { IfOk result (λ told. told.1 ≡ Counted runs ran.now.labels.failed ran.now.labels.succeeded ran.now.labels.neither) }
    ensures fits { IsCollection ran.now.collection }
{
    ran.collection.keeps();
    let text = write_collection(alloc, &ran.collection)?;
    let said = Done::Counted {
        runs,
        failed: ran.labels.failed,
        succeeded: ran.labels.succeeded,
        neither: ran.labels.neither,
    };
    Ok((text, said))
}

/// Runs the program on the input of each line of the list, tells each watcher what the runs observe, and writes to out the collection of their reports.
pub fn make_runs<S: Store, O: Sink>(
    alloc: Global,
    words: &RunsWords,
    store: &mut S,
    out: &mut O,
    probes: &mut Vec<Box<dyn Probe>>,
) -> Result<Done, Fault>
    requires rate { (1 ≤ words.now.rate) × (words.now.rate ≤ 65536) }
    requires first { 1 ≤ words.now.first }
    requires turns { words.now.turns ≤ 100000000 }
    ensures done { IfOk result (RunsDone (λ b. seen b) words.now
        (outside_state (S.holds store.old) (O.taken out.old) probes.old.items) (outside_state (S.holds store.new) (O.taken out.new) probes.new.items)) }
    ensures fault { IfErr result (λ e. HasCause e
        (λ name. IsRunsName words.now (S.holds store.old) name × CountHasRisen (S.read_faults store.old) (S.read_faults store.new))
        (CountHasRisen (O.faults out.old) (O.faults out.new)) (ListedRefusedBy words.now (S.holds store.old))) }
    ensures was_refused { IfErr result (λ e. IfRefusal e (ListedRefused words.now (S.holds store.old))) }
    ensures refused { ListedRefused words.now (S.holds store.old) → IsSome (S.holds store.old) → IsErrAnd result Precedes }

    // What is left after a fault, and which names were held: the first of them where the bytes read are refused, and else all.
    ensures left { IfErr result (LeftByRuns (λ b. seen b) words.now
        (outside_state (S.holds store.old) (O.taken out.old) probes.old.items) (outside_state (S.holds store.new) (O.taken out.new) probes.new.items)) }
    ensures was_held { IfFilesRead result (AreHeld (S.holds store.old) (first_names words.now)) }
    ensures lines_held { IfAllRead result (AreRunsHeld words.now (S.holds store.old)) }
    ensures missing { S.is_sound store.old → IfErr result (λ e. IfReadFault e (IsRunsMissing words.now (S.holds store.old))) }
    ensures held { S.holds store.new ≡ S.holds store.old }
    ensures writes { S.write_faults store.new ≡ S.write_faults store.old }

    // No count falls, and devices that are sound stay so, with their counts.
    ensures reads_rise { S.read_faults store.old ≤ S.read_faults store.new }
    ensures out_rises { O.faults out.old ≤ O.faults out.new }
    ensures store_sound { S.is_sound store.old → S.is_sound store.new }
    ensures out_sound { O.is_sound out.old → O.is_sound out.new }
    ensures reads_stay { S.is_sound store.old → AreRunsHeld words.now (S.holds store.old) → S.read_faults store.new ≡ S.read_faults store.old }
    ensures out_stays { O.is_sound out.old → O.faults out.new ≡ O.faults out.old }
{
    let texts = match read_texts(alloc, store, words) {
        Ok(texts) => texts,
        Err(fault) => return Err(fault),
    };
    let (program, plan) = match look(alloc, words, &texts) {
        Ok(looked) => looked,
        Err(fault) => return Err(fault),
    };
    let id = program_id(texts.program.as_slice());
    let count = plan.inputs.len() as u32;
    let ran = match run_planned(
        alloc,
        &program,
        id,
        &plan,
        plan.first,
        count,
        words.turns,
        store,
        probes,
    ) {
        Ok(ran) => ran,
        Err(fault) => return Err(fault),
    };
    let (text, said) = match told_of(alloc, count, &ran) {
        Ok(told) => told,
        Err(Memory) => return Err(Fault::Memory),
    };
    match put(out, text.as_slice()) {
        Ok(()) => Ok(said),
        Err(fault) => Err(fault),
    }
}
