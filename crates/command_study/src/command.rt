ghost use Rattle.std.specs.Prelude.{◌≡◌, ◌≤◌, ◌++◌, decimal, IfOk, OnOk, IfErr, IsErrAnd, IsSome};
ghost use Rattle.cbi_base.specs.Faults.{CountHasRisen};
ghost use Rattle.command_base.specs.Faults.{HasCause, IfReadFault, IfRefusal, Precedes, IfFilesRead};
ghost use Rattle.command_base.specs.Names.{IsOneOf, IsFirstMissing, AreHeld};
ghost use Rattle.command_base.specs.Outside.{outside_state};
ghost use Rattle.command_base.specs.declared.done.Done.TheVariants.{Lines};
ghost use Rattle.command_study.specs.Study.{StudyDone, StudyLeftByFault, StudyRefused, StudyRefusedBy, study_names, study_text, summary_line};

use cbi_base::{Memory, Sink, Store, push_decimal};
use cbi_options::StudyWords;
use command_base::{Done, Fault, TEXT_LIMIT, put, read_file};
use compiler::refused_texts_are_not_compiled;
use probes::Probe;
use std::alloc::Global;
use study::{StudyFault, StudyResult, study};
use study_runs::{StudyPlan, Sums};

/// Appends the words and the number.
fn push_count(text: &mut Vec<u8>, words: &[u8], number: u128) -> Result<(), Memory>
    ensures { OnOk result (text.new.items ≡ text.old.items ++ (words.now ++ decimal number)) }
{
    text.extend_from_slice(words)?;
    push_decimal(text, number)
}

/// Appends the line that sums up so many runs.
fn push_summary(text: &mut Vec<u8>, runs: u32, sums: Sums) -> Result<(), Memory>
    ensures { OnOk result (text.new.items ≡ text.old.items ++ summary_line runs sums) }
{
    push_count(text, b"study runs ", u128::from(runs))?;
    push_count(text, b" failed ", u128::from(sums.failed))?;
    push_count(text, b" ended ", u128::from(sums.ended))?;
    push_count(text, b" cut ", u128::from(sums.cut))?;
    push_count(text, b" fast ", sums.fast)?;
    push_count(text, b" slow ", sums.slow)?;
    push_count(text, b" tests ", sums.tests)?;
    text.push(b'\n')?;
    Ok(())
}

/// What is written of a study: the text of its ranking, and the line that sums it up.
fn text_of(plan: StudyPlan, studied: StudyResult) -> Result<Vec<u8>, Memory>
    ensures { IfOk result (λ text. text.items ≡ study_text plan studied) }
{
    let StudyResult { ranking, sums } = studied;
    let mut text = ranking;
    push_summary(&mut text, plan.runs, sums)?;
    Ok(text)
}

/// Makes the runs of a C text, tells each watcher what they observe, and writes to out their ranking and the line that sums them up.
pub fn study_text<S: Store, O: Sink>(
    alloc: Global,
    words: &StudyWords,
    store: &mut S,
    out: &mut O,
    probes: &mut Vec<Box<dyn Probe>>,
) -> Result<Done, Fault>
    requires runs { words.now.runs ≤ 100000 }
    requires rate { (1 ≤ words.now.rate) × (words.now.rate ≤ 65536) }
    requires turns { words.now.turns ≤ 100000000 }
    ensures done { OnOk result (StudyDone (λ b. seen b) words.now
        (outside_state (S.holds store.old) (O.taken out.old) probes.old.items) (outside_state (S.holds store.new) (O.taken out.new) probes.new.items)) }
    ensures said { IfOk result (λ said. said ≡ Lines) }
    ensures fault { IfErr result (λ e. HasCause e
        (λ name. IsOneOf (study_names words.now) name × CountHasRisen (S.read_faults store.old) (S.read_faults store.new))
        (CountHasRisen (O.faults out.old) (O.faults out.new)) (StudyRefusedBy words.now (S.holds store.old))) }
    ensures was_refused { IfErr result (λ e. IfRefusal e (StudyRefused words.now (S.holds store.old))) }
    ensures refused { StudyRefused words.now (S.holds store.old) → IsSome (S.holds store.old) → IsErrAnd result Precedes }

    // What is left after a fault, and which names were held.
    ensures left { IfErr result (λ e. StudyLeftByFault (λ b. seen b) words.now e
        (outside_state (S.holds store.old) (O.taken out.old) probes.old.items) (outside_state (S.holds store.new) (O.taken out.new) probes.new.items)) }
    ensures was_held { IfFilesRead result (AreHeld (S.holds store.old) (study_names words.now)) }
    ensures missing { S.is_sound store.old → IfErr result (λ e. IfReadFault e (IsFirstMissing (S.holds store.old) (study_names words.now))) }
    ensures held { S.holds store.new ≡ S.holds store.old }
    ensures writes { S.write_faults store.new ≡ S.write_faults store.old }

    // No count falls, and devices that are sound stay so, with their counts.
    ensures reads_rise { S.read_faults store.old ≤ S.read_faults store.new }
    ensures out_rises { O.faults out.old ≤ O.faults out.new }
    ensures store_sound { S.is_sound store.old → S.is_sound store.new }
    ensures out_sound { O.is_sound out.old → O.is_sound out.new }
    ensures reads_stay { S.is_sound store.old → AreHeld (S.holds store.old) (study_names words.now) → S.read_faults store.new ≡ S.read_faults store.old }
    ensures out_stays { O.is_sound out.old → O.faults out.new ≡ O.faults out.old }
{
    // A law, for the clause `was_refused`: no text that a refusal tells of is compiled.
    refused_texts_are_not_compiled();
    let text = match read_file(alloc, store, &words.text, TEXT_LIMIT) {
        Ok(text) => text,
        Err(fault) => return Err(fault),
    };
    let plan = StudyPlan {
        runs: words.runs,
        seed: words.seed,
        rate: words.rate,
        turns: words.turns,
        policy: words.policy,
    };
    let studied = match study(alloc, text.as_slice(), plan, probes) {
        Ok(studied) => studied,
        Err(StudyFault::Refused { refusal }) => return Err(Fault::Refused { refusal }),
        Err(StudyFault::Memory) => return Err(Fault::Memory),
    };
    let written = match text_of(plan, studied) {
        Ok(written) => written,
        Err(Memory) => return Err(Fault::Memory),
    };
    match put(out, written.as_slice()) {
        Ok(()) => Ok(Done::Lines),
        Err(fault) => Err(fault),
    }
}
