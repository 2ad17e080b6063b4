ghost use Rattle.command_rank.specs.Rank.{IsRanked, RankRefused, RankRefusedBy, rank_names};

use cbi_base::{Memory, Store};
use cbi_options::RankWords;
use command_base::{Done, Fault, Made, Work};
use command_inputs::read_runs;
use ranking::ranking_of;
use std::alloc::Global;

/// A call of `rank`, with its words.
#[derive(Debug, Drop)]
pub struct RankCall {
    /// What it is asked for.
    pub words: RankWords,
}

// The ranking of the predicates of the program by the runs of the collection.
impl Work for RankCall {
    ghost names = { λ w. rank_names w.words };

    ghost due = { λ w held. IsRanked held w.words };

    ghost due_said = { λ w held _. IsRanked held w.words };

    ghost refused = { λ w. RankRefused w.words };

    ghost refused_by = { λ w. RankRefusedBy w.words };

    fn make<S: Store>(&self, alloc: Global, store: &mut S) -> Result<Made, Fault> {
        let (program, collection) = match read_runs(
            alloc,
            store,
            &self.words.program,
            &self.words.collection,
        ) {
            Ok(runs) => runs,
            Err(fault) => return Err(fault),
        };
        match ranking_of(alloc, &collection, program.table(), self.words.policy) {
            Ok(text) => Ok(Made {
                text,
                said: Done::Nothing,
            }),
            Err(Memory) => Err(Fault::Memory),
        }
    }
}
