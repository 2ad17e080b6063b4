ghost use Rattle.std.specs.Prelude.{◌≡◌, ◌≤◌, length, IfOk, IfSome, OnOk, IfErr, IsErrAnd};
ghost use Rattle.flow.specs.declared.program.ProgramParts.{ProgramParts};
ghost use Rattle.name_lists.specs.List.{SpellsList};
ghost use Rattle.command_base.specs.Faults.{HasCause, Precedes};
ghost use Rattle.command_runs.specs.Lists.{AreBadTexts, AreUneven, IsBadList, IsBadWhere, RefusesFirst, RefusesLists, SpellLists, SpellPlan, SpellsWhere};
ghost use Rattle.command_runs.specs.Line.{AreAsMany};
ghost use Rattle.command_runs.specs.declared.plan.ListedPlan.{ListedPlan};

use crate::plan::ListedPlan;
use crate::texts::ListTexts;
use cbi_base::{Refusal, Seq};
use cbi_options::{RunsWords, Word};
use command_base::Fault;
use command_inputs::load_program;
use flow::Program;
use name_lists::{ListError, one_list, read_list};
use std::alloc::Global;

/// The names of the list with this number.
fn load_list(alloc: Global, file: u64, first: u32, text: &[u8]) -> Result<Seq<Word>, Fault>
    requires { 1 ≤ first }
    ensures found { IfOk result (SpellsList first text.now) }
    ensures fault { IfErr result (λ e. HasCause e (λ n. ⊥) ⊥ (IsBadList file first text.now)) }
    ensures precedes { IfErr result Precedes }
{
    match read_list(alloc, first, text) {
        Ok(names) => Ok(names),
        Err(ListError::BadList { line }) => Err(Fault::Refused {
            refusal: Refusal::BadList { file, line },
        }),
        Err(ListError::Memory) => Err(Fault::Memory),
    }
}

/// The names of the second list, where one is given.
fn load_where(alloc: Global, first: u32, text: &Option<Seq<u8>>) -> Result<Option<Seq<Word>>, Fault>
    requires { 1 ≤ first }
    ensures found { IfOk result (SpellsWhere first text.now) }
    ensures fault { IfErr result (λ e. HasCause e (λ n. ⊥) ⊥ (IsBadWhere first text.now)) }
    ensures precedes { IfErr result Precedes }
{
    match text {
        None => Ok(None),
        Some(text) => match load_list(alloc, 2, first, text.as_slice()) {
            Ok(names) => Ok(Some(names)),
            Err(fault) => Err(fault),
        },
    }
}

/// Refuses lists of unequal lengths, at the first line that has no fellow.
fn compare(inputs: &Seq<Word>, expects: &Option<Seq<Word>>) -> Result<(), Fault>
    requires inputs { length inputs.now ≤ 100000 }
    requires expects { IfSome expects.now (λ names. length names ≤ 100000) }
    ensures equal { OnOk result (AreAsMany inputs.now expects.now) }
    ensures fault { IfErr result (λ e. HasCause e (λ n. ⊥) ⊥ (AreUneven inputs.now expects.now)) }
    ensures precedes { IfErr result Precedes }
{
    let Some(expects) = expects else {
        return Ok(());
    };
    if expects.len() < inputs.len() {
        let line = expects.len() as u32 + 1;
        return Err(Fault::Refused {
            refusal: Refusal::BadList { file: 1, line },
        });
    }
    if inputs.len() < expects.len() {
        let line = inputs.len() as u32 + 1;
        return Err(Fault::Refused {
            refusal: Refusal::BadList { file: 2, line },
        });
    }
    Ok(())
}

/// The plan of the lists that the texts spell.
fn load_plan(alloc: Global, words: &RunsWords, texts: &ListTexts) -> Result<ListedPlan, Fault>
    requires { 1 ≤ words.now.first }
    ensures found { IfOk result (SpellLists words.now texts.now) }
    ensures fault { IfErr result (λ e. HasCause e (λ n. ⊥) ⊥ (RefusesLists words.now texts.now)) }
    ensures precedes { IfErr result Precedes }
{
    let inputs = load_list(alloc, 1, words.first, texts.inputs.as_slice())?;
    let expects = match load_where(alloc, words.first, &texts.expect) {
        Ok(expects) => expects,
        Err(fault) => return Err(fault),
    };
    match compare(&inputs, &expects) {
        Ok(()) => Ok(ListedPlan {
            inputs,
            expects,
            rate: words.rate,
            seed: words.seed,
            first: words.first,
        }),
        Err(fault) => Err(fault),
    }
}

/// The program that the texts spell, and the plan of their lists. A refusal of the program comes first, then one of the first list, then one of the
/// second, and last that of a line that has no fellow.
pub fn look(
    alloc: Global,
    words: &RunsWords,
    texts: &ListTexts,
) -> Result<(Program, ListedPlan), Fault>
    requires { 1 ≤ words.now.first }
    ensures found { IfOk result (λ (program, plan). SpellPlan words.now texts.now program plan) }
    ensures only { (parts : ProgramParts) (plan : ListedPlan) → SpellPlan words.now texts.now parts plan
        → IfOk result (λ (program, found). (program ≡ parts) × (found ≡ plan)) }
    ensures fault { IfErr result (λ e. HasCause e (λ n. ⊥) ⊥ (RefusesFirst words.now texts.now)) }
    ensures refused { AreBadTexts words.now texts.now → IsErrAnd result Precedes }
{
    // A law, for the clauses `only` and `refused`: a text spells one list.
    one_list();
    let program = match load_program(alloc, texts.program.as_slice()) {
        Ok(program) => program,
        Err(fault) => return Err(fault),
    };
    match load_plan(alloc, words, texts) {
        Ok(plan) => Ok((program, plan)),
        Err(fault) => Err(fault),
    }
}
