ghost use Rattle.std.specs.Prelude.{◌≡◌, IfOk, IfErr, IsErrAnd};
ghost use Rattle.flow.specs.Sites.{MayPart};
ghost use Rattle.compiler.specs.Planned.{part_in};
ghost use Rattle.compiler.specs.Refused.{IsRefusedText, RefusesText};
ghost use Rattle.command_base.specs.Faults.{HasCause, Precedes};
ghost use Rattle.command_transform.specs.Transform.{IsFileOf, IsTransformed, TransformRefused, TransformRefusedBy, plan_of, transform_names};

use cbi_base::{Memory, Store};
use cbi_options::{Mode, TransformWords};
use command_base::{Done, Fault, Made, TEXT_LIMIT, Work, read_file};
use compiler::{CompileError, Plan, compile, refused_texts_are_not_compiled};
use program_file::write_program;
use std::alloc::Global;

/// What the text is compiled to.
fn plan_of(words: &TransformWords) -> Plan
    requires { MayPart words.now.part }
    ensures value { result ≡ plan_of words.now }
    ensures may { MayPart (part_in result) }
{
    let schemes = words.schemes;
    let part = words.part;
    match words.mode {
        Mode::Plain => Plan::Plain,
        Mode::Full => Plan::Full { schemes, part },
        Mode::Sampled => Plan::Sampled { schemes, part },
    }
}

/// The file of the program that a text is compiled to.
fn file_of(alloc: Global, words: &TransformWords, text: &[u8]) -> Result<Vec<u8>, Fault>
    requires { MayPart words.now.part }
    ensures is_file { IfOk result (λ file. IsFileOf words.now text.now file.items) }
    ensures fault { IfErr result (λ e. HasCause e (λ n. ⊥) ⊥ (λ r. RefusesText (plan_of words.now) r text.now)) }
    ensures refused { IsRefusedText (plan_of words.now) text.now → IsErrAnd result Precedes }
{
    let program = match compile(alloc, text, plan_of(words)) {
        Ok(program) => program,
        Err(CompileError::Refused { refusal }) => return Err(Fault::Refused { refusal }),
        Err(CompileError::Memory) => return Err(Fault::Memory),
    };
    match write_program(alloc, &program) {
        Ok(file) => Ok(file),
        Err(Memory) => Err(Fault::Memory),
    }
}

/// A call of `transform`, with its words.
#[derive(Debug, Drop)]
pub struct TransformCall {
    /// What it is asked for.
    pub words: TransformWords,
}

// The file of the program that the text is compiled to.
impl Work for TransformCall {
    ghost may = { λ w. MayPart w.words.part };

    ghost names = { λ w. transform_names w.words };

    ghost due = { λ w held. IsTransformed held w.words };

    ghost due_said = { λ w held _. IsTransformed held w.words };

    ghost refused = { λ w. TransformRefused w.words };

    ghost refused_by = { λ w. TransformRefusedBy w.words };

    fn make<S: Store>(&self, alloc: Global, store: &mut S) -> Result<Made, Fault> {
        // A law, for the clause `was_refused`: no text that a refusal tells of is compiled.
        refused_texts_are_not_compiled();
        let text = match read_file(alloc, store, &self.words.text, TEXT_LIMIT) {
            Ok(text) => text,
            Err(fault) => return Err(fault),
        };
        match file_of(alloc, &self.words, text.as_slice()) {
            Ok(file) => Ok(Made {
                text: file,
                said: Done::Nothing,
            }),
            Err(fault) => Err(fault),
        }
    }
}
