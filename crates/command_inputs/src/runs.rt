ghost use Rattle.std.specs.Prelude.{IfOk, IfErr, IsErrAnd, IsSome};
ghost use Rattle.command_base.specs.Faults.{HasCause, IfRefusal, Precedes};
ghost use Rattle.command_base.specs.Reading.{HasRead};
ghost use Rattle.command_inputs.specs.Runs.{AreRefusedRuns, AreRunsOf, AreRunsTexts, HoldsRuns, RefusesRuns, RunsRefused, RunsRefusedBy, runs_names};

use crate::collections::{FILE_LIMIT, fault_of, load_collection};
use crate::programs::load_program;
use cbi_base::{Seq, Store};
use cbi_options::Word;
use collector::Collection;
use command_base::{Fault, PROGRAM_LIMIT, read_file};
use flow::Program;
use program_file::program_id;
use std::alloc::Global;

/// The bytes that were read of the file of a program and of that of a collection of its runs.
#[derive(Debug, Drop)]
pub struct RunsTexts {
    pub program: Seq<u8>,
    pub collection: Seq<u8>,
}

/// The bytes of the program file, and then of the collection's.
fn read_runs_texts<S: Store>(
    alloc: Global,
    store: &mut S,
    program: &Word,
    collection: &Word,
) -> Result<RunsTexts, Fault>
    ensures texts { IfOk result (AreRunsTexts (S.holds store.old) program.now collection.now) }
    ensures read { HasRead S.holds S.read_faults S.write_faults S.is_sound store.old store.new
        (runs_names program.now collection.now) (λ r. ⊥) result }
{
    let program = read_file(alloc, store, program, PROGRAM_LIMIT)?;
    let collection = read_file(alloc, store, collection, FILE_LIMIT)?;
    Ok(RunsTexts {
        program,
        collection,
    })
}

/// The program that the texts spell, and the collection of its runs.
fn load_runs(alloc: Global, texts: &RunsTexts) -> Result<(Program, Collection), Fault>
    ensures runs { IfOk result (λ (program, collection). HoldsRuns texts.now program collection) }
    ensures fault { IfErr result (λ e. HasCause e (λ n. ⊥) ⊥ (λ r. RefusesRuns r texts.now)) }
    ensures refused { AreRefusedRuns texts.now → IsErrAnd result Precedes }
{
    let program = match load_program(alloc, texts.program.as_slice()) {
        Ok(program) => program,
        Err(fault) => return Err(fault),
    };
    let bundle = match load_collection(alloc, 1, texts.collection.as_slice()) {
        Ok(bundle) => bundle,
        Err(fault) => return Err(fault),
    };
    let id = program_id(texts.program.as_slice());
    let Ok(mut collection) = Collection::new(alloc, id, program.table()) else {
        return Err(Fault::Memory);
    };
    match collection.merge(bundle) {
        Ok(_) => Ok((program, collection)),
        Err(fault) => Err(fault_of(fault)),
    }
}

/// The program of the one file, and the collection of its runs that the other one holds.
pub fn read_runs<S: Store>(
    alloc: Global,
    store: &mut S,
    program: &Word,
    collection: &Word,
) -> Result<(Program, Collection), Fault>
    ensures runs { IfOk result (λ (parts, held). AreRunsOf (S.holds store.old) program.now collection.now parts held) }
    ensures was_refused { IfErr result (λ e. IfRefusal e (RunsRefused (S.holds store.old) program.now collection.now)) }
    ensures refused { RunsRefused (S.holds store.old) program.now collection.now → IsSome (S.holds store.old) → IsErrAnd result Precedes }
    ensures read { HasRead S.holds S.read_faults S.write_faults S.is_sound store.old store.new
        (runs_names program.now collection.now) (RunsRefusedBy (S.holds store.old) program.now collection.now) result }
{
    let texts = match read_runs_texts(alloc, store, program, collection) {
        Ok(texts) => texts,
        Err(fault) => return Err(fault),
    };
    match load_runs(alloc, &texts) {
        Ok(loaded) => Ok(loaded),
        Err(fault) => Err(fault),
    }
}
