ghost use Rattle.std.specs.Prelude.{◌≡◌, ◌∷◌, [], true, false, List, IfOk, IfErr};
ghost use Rattle.report_file.specs.Report.{IsReport};
ghost use Rattle.collector.specs.Merging.{IsBundle};
ghost use Rattle.collector.specs.declared.collection.Bundle.{Bundle};
ghost use Rattle.command_base.specs.Faults.{HasCause};
ghost use Rattle.command_base.specs.Reading.{HasRead};
ghost use Rattle.command_collect.specs.Collect.{AreBundles, AreCollectTexts, AreReadOf, AreSpelled, RefusesFile, RefusesFiles, SpellsFile, collect_names};
ghost use Rattle.command_collect.specs.Collect.{is_collection};

use cbi_base::{Memory, Refusal, Seq, Store};
use cbi_options::{CollectWords, Word};
use collector::Bundle;
use command_base::{Fault, PROGRAM_LIMIT, read_file};
use command_inputs::{FILE_LIMIT, load_collection};
use report_file::{Report, ReportError, read_report};
use std::alloc::Global;

/// The bytes that were read of the files of a collection.
#[derive(Debug, Drop)]
pub struct CollectTexts {
    pub program: Seq<u8>,
    pub files: Seq<Seq<u8>>,
}

/// The bytes of the files with these names, in their order.
fn read_each<S: Store>(alloc: Global, store: &mut S, names: &[Word]) -> Result<Seq<Seq<u8>>, Fault>
    ensures texts { IfOk result (AreReadOf (S.holds store.old) names.now) }
    ensures read { HasRead S.holds S.read_faults S.write_faults S.is_sound store.old store.new names.now (λ r. ⊥) result }
{
    let mut texts = Seq::new(alloc);
    let mut rest = names;
    while let [name, after @ ..] = rest {
        let text = read_file(alloc, store, name, FILE_LIMIT)?;
        texts.push(text)?;
        rest = after;
    }
    Ok(texts)
}

/// The bytes of the program file, and then of each file of reports.
pub fn read_texts<S: Store>(
    alloc: Global,
    store: &mut S,
    words: &CollectWords,
) -> Result<CollectTexts, Fault>
    ensures texts { IfOk result (AreCollectTexts (S.holds store.old) words.now) }
    ensures read { HasRead S.holds S.read_faults S.write_faults S.is_sound store.old store.new (collect_names words.now) (λ r. ⊥) result }
{
    let program = read_file(alloc, store, &words.program, PROGRAM_LIMIT)?;
    let files = read_each(alloc, store, words.files.as_slice())?;
    Ok(CollectTexts { program, files })
}

/// One report as a bundle.
fn bundle_of(alloc: Global, report: Report) -> Result<Bundle, Memory>
    requires { IsReport report }
    ensures is { IfOk result (λ b. b ≡ record { program = report.program; reports = report ∷ [] }) }
    ensures is_bundle { IfOk result IsBundle }
{
    let program = report.program;
    let mut reports = Seq::new(alloc);
    reports.push(report)?;
    Ok(Bundle { program, reports })
}

fn is_collection(text: &[u8]) -> bool
    ensures { result ≡ is_collection text.now }
{
    text.starts_with(b"cbi-collection ")
}

/// The reports of a text that begins as a collection does.
fn read_bundle(alloc: Global, number: u64, text: &[u8]) -> Result<Bundle, Fault>
    requires { is_collection text.now ≡ true }
    ensures spells { IfOk result (SpellsFile text.now) }
    ensures only { (b : Bundle) → SpellsFile text.now b → IfOk result (λ r. b ≡ r) }
    ensures is_bundle { IfOk result IsBundle }
    ensures fault { IfErr result (λ e. HasCause e (λ n. ⊥) ⊥ (RefusesFile number text.now)) }
{
    match load_collection(alloc, number, text) {
        Ok(bundle) => Ok(bundle),
        Err(fault) => Err(fault),
    }
}

/// The report of a text that doesn't.
fn read_one(alloc: Global, number: u64, text: &[u8]) -> Result<Bundle, Fault>
    requires { is_collection text.now ≡ false }
    ensures spells { IfOk result (SpellsFile text.now) }
    ensures only { (b : Bundle) → SpellsFile text.now b → IfOk result (λ r. b ≡ r) }
    ensures is_bundle { IfOk result IsBundle }
    ensures fault { IfErr result (λ e. HasCause e (λ n. ⊥) ⊥ (RefusesFile number text.now)) }
{
    match read_report(alloc, text) {
        Ok(report) => Ok(bundle_of(alloc, report)?),
        Err(ReportError::BadReport { line }) => Err(Fault::Refused {
            refusal: Refusal::BadReport { file: number, line },
        }),
        Err(ReportError::Memory) => Err(Fault::Memory),
    }
}

/// The reports that a text holds, which is the file with this number.
fn read_reports(alloc: Global, number: u64, text: &[u8]) -> Result<Bundle, Fault>
    ensures spells { IfOk result (SpellsFile text.now) }
    ensures only { (b : Bundle) → SpellsFile text.now b → IfOk result (λ r. b ≡ r) }
    ensures is_bundle { IfOk result IsBundle }
    ensures fault { IfErr result (λ e. HasCause e (λ n. ⊥) ⊥ (RefusesFile number text.now)) }
{
    if is_collection(text) {
        read_bundle(alloc, number, text)
    } else {
        read_one(alloc, number, text)
    }
}

/// The reports that the texts hold, one after another.
pub fn read_all(alloc: Global, texts: &[Seq<u8>]) -> Result<Seq<Bundle>, Fault>
    ensures spelled { IfOk result (AreSpelled texts.now) }
    ensures only { (others : List Bundle) → AreSpelled texts.now others → IfOk result (λ r. others ≡ r) }
    ensures are_bundles { IfOk result AreBundles }
    ensures fault { IfErr result (λ e. HasCause e (λ n. ⊥) ⊥ (RefusesFiles 1 texts.now)) }
{
    let mut bundles = Seq::new(alloc);
    let mut number: u64 = 0;
    let mut rest = texts;
    while let [text, after @ ..] = rest {
        number += 1;
        let bundle = read_reports(alloc, number, text.as_slice())?;
        bundles.push(bundle)?;
        rest = after;
    }
    Ok(bundles)
}
