ghost use Rattle.std.specs.Prelude.{IfOk};
ghost use Rattle.command_base.specs.Reading.{HasRead};
ghost use Rattle.command_widen.specs.Widen.{AreWidenTexts, widen_names};

use cbi_base::{Seq, Store};
use cbi_options::WidenWords;
use command_base::{Fault, PROGRAM_LIMIT, read_file};
use command_inputs::{FILE_LIMIT, RunsTexts};
use std::alloc::Global;

/// The bytes that were read: of the file of the whole program, and of those of the other program and of a collection of its runs.
#[derive(Debug, Drop)]
pub struct WidenTexts {
    pub whole: Seq<u8>,
    pub runs: RunsTexts,
}

/// The bytes of the whole program's file, then of the other program's, and then of the collection's.
pub fn read_texts<S: Store>(
    alloc: Global,
    store: &mut S,
    words: &WidenWords,
) -> Result<WidenTexts, Fault>
    ensures texts { IfOk result (AreWidenTexts (S.holds store.old) words.now) }
    ensures read { HasRead S.holds S.read_faults S.write_faults S.is_sound store.old store.new (widen_names words.now) (λ r. ⊥) result }
{
    let whole = read_file(alloc, store, &words.whole, PROGRAM_LIMIT)?;
    let program = read_file(alloc, store, &words.program, PROGRAM_LIMIT)?;
    let collection = read_file(alloc, store, &words.collection, FILE_LIMIT)?;
    Ok(WidenTexts {
        whole,
        runs: RunsTexts {
            program,
            collection,
        },
    })
}
