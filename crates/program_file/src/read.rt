ghost use Rattle.std.specs.Prelude.{◌≡◌, ℕ, List, IfOk, Err};
ghost use Rattle.flow.specs.Spelling.{SpellsProgram};
ghost use Rattle.flow.specs.declared.program.ProgramParts.{ProgramParts};
ghost use Rattle.program_file.specs.Errors.{ProgramReadAs, ProgramRefusedAt};
ghost use Rattle.program_file.specs.WrongLine.{IsWrongAt};
ghost use Rattle.program_file.specs.declared.error.ProgramError.TheVariants as error;

use crate::draft::Draft;
use crate::error::ProgramError;
use cbi_base::{TextError, read_lines};
use flow::Program;
use std::alloc::Global;

/// The program whose text the bytes are.
pub fn read_program(alloc: Global, bytes: &[u8]) -> Result<Program, ProgramError>
    // What is read is spelled so.
    ensures found { IfOk result (λ p. SpellsProgram bytes.now p) }
    // What is spelled so is read, unless memory runs out: so a text is refused exactly where no program spells it.
    ensures only { (p : ProgramParts) → SpellsProgram bytes.now p → ProgramReadAs result p }
    // A refusal names the line at which the text goes wrong.
    ensures line { (line : ℕ) → result ≡ Err (error.BadProgram line) → IsWrongAt bytes.now line }
    // A text that goes wrong at a line is refused there, unless memory runs out.
    ensures wrong { (line : ℕ) → IsWrongAt bytes.now line → ProgramRefusedAt result line }
{
    let mut draft = Draft::new(alloc);
    match read_lines(&mut draft, bytes) {
        Ok(()) => Ok(Program::of(alloc, draft.finish())?),
        Err(TextError::Bad { line }) => Err(ProgramError::BadProgram { line }),
        Err(TextError::Memory) => Err(ProgramError::Memory),
    }
}

/// A text is that of one program.
pub fn one_program(_alloc: Global)
    ensures { (text : List ℕ) (p q : ProgramParts) → SpellsProgram text p → SpellsProgram text q → p ≡ q }
{}

/// A text is wrong at one line at most, and nowhere where a program spells it.
pub fn one_wrong_line()
    ensures once { (text : List ℕ) (a b : ℕ) → IsWrongAt text a → IsWrongAt text b → a ≡ b }
    ensures never { (text : List ℕ) (p : ProgramParts) (line : ℕ) → SpellsProgram text p → ¬ (IsWrongAt text line) }
{}
