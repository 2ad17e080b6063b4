ghost use Rattle.std.specs.Prelude.{◌≡◌, List, IfErr, IfOk, IsErrAnd};
ghost use Rattle.command_base.specs.Faults.{HasCause, Precedes};
ghost use Rattle.command_base.specs.Reading.{HasRead};
ghost use Rattle.command_session.specs.Session.{AreRefusedTexts, AreSessionTexts, AreTextsReplayed, IsBadEdits, RefusesTexts, TellsOf, session_names};
ghost use Rattle.session_edits.specs.Spelling.{SpellsEdits};
ghost use Rattle.session_edits.specs.declared.edit.Edit.{Edit};

use cbi_base::{Policy, ProgramId, Refusal, Seq, Store};
use cbi_options::SessionWords;
use command_base::{Fault, PROGRAM_LIMIT, read_file};
use command_inputs::{FILE_LIMIT, fault_of, load_program};
use program_file::program_id;
use session_edits::{Edit, EditsError, read_edits};
use session_replay::{EditFault, replay};
use std::alloc::Global;

/// The bytes that were read of the program file and of the file of edits.
#[derive(Debug, Drop)]
pub struct SessionTexts {
    pub program: Seq<u8>,
    pub edits: Seq<u8>,
}

/// The bytes of the program file, and then of the file of edits.
pub fn read_texts<S: Store>(
    alloc: Global,
    store: &mut S,
    words: &SessionWords,
) -> Result<SessionTexts, Fault>
    ensures texts { IfOk result (AreSessionTexts (S.holds store.old) words.now) }
    ensures read { HasRead S.holds S.read_faults S.write_faults S.is_sound store.old store.new (session_names words.now) (λ r. ⊥) result }
{
    let program = read_file(alloc, store, &words.program, PROGRAM_LIMIT)?;
    let edits = read_file(alloc, store, &words.edits, FILE_LIMIT)?;
    Ok(SessionTexts { program, edits })
}

// The edits that a text spells, of runs of this program.
fn load_edits(alloc: Global, program: &ProgramId, text: &[u8]) -> Result<Seq<Edit>, Fault>
    ensures found { IfOk result (SpellsEdits program.now text.now) }
    ensures only { (edits : List Edit) → SpellsEdits program.now text.now edits → IfOk result (λ r. r ≡ edits) }
    ensures fault { IfErr result (λ e. HasCause e (λ n. ⊥) ⊥ (IsBadEdits program.now text.now)) }
    ensures precedes { IfErr result Precedes }
{
    match read_edits(alloc, program, text) {
        Ok(edits) => Ok(edits),
        Err(EditsError::BadEdits { line }) => Err(Fault::Refused {
            refusal: Refusal::BadEdits { line },
        }),
        Err(EditsError::Memory) => Err(Fault::Memory),
    }
}

// What a faulty edit is to the command.
fn fault_of_edit(fault: EditFault) -> Fault
    ensures cause { HasCause result (λ n. ⊥) ⊥ (TellsOf fault) }
    ensures precedes { Precedes result }
{
    match fault {
        EditFault::NotAdded { fault } => fault_of(fault),
        EditFault::Absent { run } => Fault::Refused {
            refusal: Refusal::Absent { run },
        },
        EditFault::Memory => Fault::Memory,
    }
}

/// The rankings that the texts ask for.
pub fn replay_texts(alloc: Global, texts: &SessionTexts, policy: Policy) -> Result<Vec<u8>, Fault>
    ensures text { IfOk result (λ text. AreTextsReplayed texts.now policy text.items) }
    ensures fault { IfErr result (λ e. HasCause e (λ n. ⊥) ⊥ (λ r. RefusesTexts r texts.now)) }
    ensures refused { AreRefusedTexts texts.now → IsErrAnd result Precedes }
{
    let program = match load_program(alloc, texts.program.as_slice()) {
        Ok(program) => program,
        Err(fault) => return Err(fault),
    };
    let id = program_id(texts.program.as_slice());
    let edits = match load_edits(alloc, &id, texts.edits.as_slice()) {
        Ok(edits) => edits,
        Err(fault) => return Err(fault),
    };
    match replay(alloc, id, program.table(), policy, edits) {
        Ok(text) => Ok(text),
        Err(fault) => Err(fault_of_edit(fault)),
    }
}
