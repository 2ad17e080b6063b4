ghost use Rattle.std.specs.Prelude.{◌≡◌, ◌≤◌, length, IfOk, OnOk, OnErr, IfErr, IsNone};
ghost use Rattle.cbi_base.specs.Words.{CountHasRisen, Takes};
ghost use Rattle.machine.specs.Going.{IsBounded};
ghost use Rattle.report_file.specs.Report.{IsReport, IsSummary};
ghost use Rattle.report_file.specs.Spelling.{report_text};
ghost use Rattle.command_base.specs.Faults.{WriteFaultOf, HasCause};
ghost use Rattle.command_base.specs.Outside.{AllStayBut};
ghost use Rattle.command_run.specs.Run.{PublishesPart, Reports, report_of};

use crate::files::RunFiles;
use cbi_base::{Memory, Seq, Sink, Store};
use cbi_options::RunWords;
use command_base::{Fault, put, write_file};
use expected::agrees;
use flow::RunResult;
use program_file::program_id;
use report_file::{RunSummary, label_of, make_report, write_report};
use std::alloc::Global;

/// What the report of a run is made of.
fn summary_of(alloc: Global, ran: &RunResult) -> Result<RunSummary, Memory>
    requires bounded { IsBounded ran.now }
    requires few { length ran.now.counts ≤ 65536 }
    ensures is { IfOk result (λ s. s ≡ record { outcome = ran.now.outcome; work = ran.now.work; counts = ran.now.counts }) }
    ensures is_summary { IfOk result IsSummary }
{
    Ok(RunSummary {
        outcome: ran.outcome,
        work: ran.work,
        counts: Seq::from_vec(Vec::from_slice(alloc, ran.counts.as_slice())?),
    })
}

/// The text of the report of a run.
fn text_of(
    alloc: Global,
    words: &RunWords,
    files: &RunFiles,
    ran: &RunResult,
) -> Result<Vec<u8>, Memory>
    requires run { 1 ≤ words.now.run }
    requires bounded { IsBounded ran.now }
    requires few { length ran.now.counts ≤ 65536 }
    ensures is { IfOk result (λ text. text.items ≡ report_text (report_of words.now files.now ran.now)) }
    ensures spelled { OnOk result (IsReport (report_of words.now files.now ran.now)) }
{
    let program = program_id(files.program.as_slice());
    let label = label_of(ran.outcome, agrees(&files.expect, ran.output.as_slice()));
    let summary = summary_of(alloc, ran)?;
    let report = make_report(alloc, program, words.run, &summary, label)?;
    write_report(alloc, &report)
}

/// Hands the output of a run to out, and then writes its report, where a name is given for it.
pub fn publish<S: Store, O: Sink>(
    alloc: Global,
    words: &RunWords,
    files: &RunFiles,
    ran: &RunResult,
    store: &mut S,
    out: &mut O,
) -> Result<(), Fault>
    requires run { 1 ≤ words.now.run }
    requires bounded { IsBounded ran.now }
    requires few { length ran.now.counts ≤ 65536 }
    ensures took { OnOk result (Takes (O.taken out.old) (O.taken out.new) ran.now.output) }
    ensures reported { OnOk result (Reports words.now.report (S.holds store.old) (S.holds store.new) (report_of words.now files.now ran.now)) }
    ensures fault { IfErr result (λ e. HasCause e (λ n. ⊥)
        (WriteFaultOf words.now.report (CountHasRisen (O.faults out.old) (O.faults out.new))
        (CountHasRisen (S.write_faults store.old) (S.write_faults store.new))) (λ r. ⊥)) }
    ensures part { OnErr result (PublishesPart words.now files.now ran.now (O.taken out.old) (O.taken out.new) (S.holds store.old) (S.holds store.new)) }
    ensures held { AllStayBut words.now.report (S.holds store.old) (S.holds store.new) }
    ensures no_write { IsNone words.now.report → S.write_faults store.new ≡ S.write_faults store.old }

    // No count falls, and devices that are sound stay so, with their counts.
    ensures reads { S.read_faults store.new ≡ S.read_faults store.old }
    ensures writes_rise { S.write_faults store.old ≤ S.write_faults store.new }
    ensures out_rises { O.faults out.old ≤ O.faults out.new }
    ensures store_sound { S.is_sound store.old → S.is_sound store.new }
    ensures out_sound { O.is_sound out.old → O.is_sound out.new }
    ensures writes_stay { S.is_sound store.old → S.write_faults store.new ≡ S.write_faults store.old }
    ensures out_stays { O.is_sound out.old → O.faults out.new ≡ O.faults out.old }
{
    let Some(name) = &words.report else {
        return put(out, ran.output.as_slice());
    };
    let text = text_of(alloc, words, files, ran)?;
    put(out, ran.output.as_slice())?;
    write_file(alloc, store, name, text.as_slice())
}
