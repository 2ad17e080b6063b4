ghost use Rattle.std.specs.Prelude.{◌≤◌, length, IfOk, OnOk, IfErr, IsErrAnd};
ghost use Rattle.std.specs.Option.{option_to_list};
ghost use Rattle.flow.specs.Spelling.{SpellsProgram};
ghost use Rattle.command_base.specs.Faults.{HasCause, Precedes};
ghost use Rattle.command_base.specs.Reading.{HasRead};
ghost use Rattle.command_run.specs.Files.{AreFiles, IsReadOr, IsReadWhere, run_names};
ghost use Rattle.command_run.specs.Run.{IsBankOf, AreRefused, RefusesBytes};

use cbi_base::{Refusal, Seq, Store};
use cbi_options::{RunWords, Word};
use command_base::{Fault, PROGRAM_LIMIT, read_file};
use command_inputs::load_program;
use countdown_bank::{Bank, BankError, read_bank};
use expected::EXPECT_LIMIT;
use flow::Program;
use std::alloc::Global;

/// The most bytes that are read of a bank.
const BANK_LIMIT: u64 = 1048576;

/// The most bytes of an input.
pub const INPUT_LIMIT: u64 = 16777216;

/// The text of the bank of the one number 1.
const TEXT_OF_ONE: &[u8] = b"1\n";

/// The bytes that were read of a run's files.
#[derive(Debug, Drop)]
pub struct RunFiles {
    pub program: Seq<u8>,
    pub bank: Seq<u8>,
    pub input: Seq<u8>,
    /// Of the file that the output is to equal, where one is given.
    pub expect: Option<Seq<u8>>,
}

/// The bytes of the file with this name, or the first `max + 1` of them; these where no name is given.
fn read_or<S: Store>(
    alloc: Global,
    store: &mut S,
    name: &Option<Word>,
    max: u64,
    otherwise: &[u8],
) -> Result<Seq<u8>, Fault>
    ensures bytes { IfOk result (IsReadOr otherwise.now (S.holds store.old) name.now max) }
    ensures read { HasRead S.holds S.read_faults S.write_faults S.is_sound store.old store.new (option_to_list name.now) (λ r. ⊥) result }
{
    match name {
        None => match Vec::from_slice(alloc, otherwise) {
            Ok(bytes) => Ok(Seq::from_vec(bytes)),
            Err(_) => Err(Fault::Memory),
        },
        Some(name) => read_file(alloc, store, name, max),
    }
}

/// The bytes of the file with this name, or the first `max + 1` of them, where a name is given.
pub fn read_where<S: Store>(
    alloc: Global,
    store: &mut S,
    name: &Option<Word>,
    max: u64,
) -> Result<Option<Seq<u8>>, Fault>
    ensures bytes { IfOk result (IsReadWhere (S.holds store.old) name.now max) }
    ensures read { HasRead S.holds S.read_faults S.write_faults S.is_sound store.old store.new (option_to_list name.now) (λ r. ⊥) result }
{
    match name {
        None => Ok(None),
        Some(name) => match read_file(alloc, store, name, max) {
            Ok(bytes) => Ok(Some(bytes)),
            Err(fault) => Err(fault),
        },
    }
}

/// The bytes of a run's files: of the program, of the bank, of the input, and then of the file that the output is to equal.
pub fn read_files<S: Store>(
    alloc: Global,
    store: &mut S,
    words: &RunWords,
) -> Result<RunFiles, Fault>
    ensures files { IfOk result (AreFiles (S.holds store.old) words.now) }
    ensures read { HasRead S.holds S.read_faults S.write_faults S.is_sound store.old store.new (run_names words.now) (λ r. ⊥) result }
{
    let program = read_file(alloc, store, &words.program, PROGRAM_LIMIT)?;
    let bank = read_or(alloc, store, &words.bank, BANK_LIMIT, TEXT_OF_ONE)?;
    let input = match read_or(alloc, store, &words.input, INPUT_LIMIT, b"".as_slice()) {
        Ok(input) => input,
        Err(fault) => return Err(fault),
    };
    let expect = match read_where(alloc, store, &words.expect, EXPECT_LIMIT) {
        Ok(expect) => expect,
        Err(fault) => return Err(fault),
    };
    Ok(RunFiles {
        program,
        bank,
        input,
        expect,
    })
}

/// The program and the bank that the bytes spell, where neither they nor the input are refused. A refusal of the program comes first, and one of the
/// input last.
pub fn look(alloc: Global, files: &RunFiles) -> Result<(Program, Bank), Fault>
    ensures found { IfOk result (λ (program, bank). SpellsProgram files.now.program program) }
    ensures bank { IfOk result (λ (program, bank). IsBankOf files.now.bank bank) }
    ensures fits { OnOk result (length files.now.input ≤ 16777216) }
    ensures fault { IfErr result (λ e. HasCause e (λ n. ⊥) ⊥ (λ r. RefusesBytes r files.now)) }
    ensures refused { AreRefused files.now → IsErrAnd result Precedes }
{
    let program = match load_program(alloc, files.program.as_slice()) {
        Ok(program) => program,
        Err(fault) => return Err(fault),
    };
    let bank = match read_bank(alloc, files.bank.as_slice()) {
        Ok(bank) => bank,
        Err(BankError::BadBank { line }) => {
            return Err(Fault::Refused {
                refusal: Refusal::BadBank { line },
            });
        }
        Err(BankError::Memory) => return Err(Fault::Memory),
    };
    if files.input.len() as u64 > INPUT_LIMIT {
        return Err(Fault::Refused {
            refusal: Refusal::InputTooLarge,
        });
    }
    Ok((program, bank))
}
