ghost use Rattle.command_pairs.specs.Pairs.{IsPaired, PairsRefused, PairsRefusedBy, pairs_names};

use cbi_base::{Memory, Store};
use cbi_options::PairsWords;
use command_base::{Done, Fault, Made, Work};
use command_inputs::read_runs;
use compound::{best_pair, pairs_text};
use std::alloc::Global;

/// A call of `pairs`, with its words.
#[derive(Debug, Drop)]
pub struct PairsCall {
    /// What it is asked for.
    pub words: PairsWords,
}

// The text of the best pair of predicates of the program over the runs of the collection. It is refused as `rank` is.
impl Work for PairsCall {
    ghost names = { λ w. pairs_names w.words };

    ghost due = { λ w held. IsPaired held w.words };

    ghost due_said = { λ w held _. IsPaired held w.words };

    ghost refused = { λ w. PairsRefused w.words };

    ghost refused_by = { λ w. PairsRefusedBy w.words };

    fn make<S: Store>(&self, alloc: Global, store: &mut S) -> Result<Made, Fault> {
        let (program, collection) = match read_runs(
            alloc,
            store,
            &self.words.program,
            &self.words.collection,
        ) {
            Ok(runs) => runs,
            Err(fault) => return Err(fault),
        };
        let found = match best_pair(alloc, &collection, program.table()) {
            Ok(found) => found,
            Err(Memory) => return Err(Fault::Memory),
        };
        match pairs_text(alloc, &found, program.table()) {
            Ok(text) => Ok(Made {
                text,
                said: Done::Nothing,
            }),
            Err(Memory) => Err(Fault::Memory),
        }
    }
}
