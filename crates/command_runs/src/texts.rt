ghost use Rattle.std.specs.Prelude.{IfOk};
ghost use Rattle.command_base.specs.Reading.{HasRead};
ghost use Rattle.command_runs.specs.Lists.{AreListTexts, first_names};

use cbi_base::{Seq, Store};
use cbi_options::RunsWords;
use command_base::{Fault, PROGRAM_LIMIT, read_file};
use command_run::read_where;
use std::alloc::Global;

/// The most bytes of a list: 100,000 names of 4,095 bytes, each with its newline.
const LIST_LIMIT: u64 = 409600000;

/// The bytes that were read of the program file and of the lists.
#[derive(Debug, Drop)]
pub struct ListTexts {
    pub program: Seq<u8>,
    pub inputs: Seq<u8>,
    /// Of the second list, where one is given.
    pub expect: Option<Seq<u8>>,
}

/// The bytes of the program file, of the list of inputs, and then of the second list.
pub fn read_texts<S: Store>(
    alloc: Global,
    store: &mut S,
    words: &RunsWords,
) -> Result<ListTexts, Fault>
    ensures texts { IfOk result (AreListTexts (S.holds store.old) words.now) }
    ensures read { HasRead S.holds S.read_faults S.write_faults S.is_sound store.old store.new (first_names words.now) (λ r. ⊥) result }
{
    let program = read_file(alloc, store, &words.program, PROGRAM_LIMIT)?;
    let inputs = read_file(alloc, store, &words.inputs, LIST_LIMIT)?;
    let expect = match read_where(alloc, store, &words.expect, LIST_LIMIT) {
        Ok(expect) => expect,
        Err(fault) => return Err(fault),
    };
    Ok(ListTexts {
        program,
        inputs,
        expect,
    })
}
