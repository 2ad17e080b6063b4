ghost use Rattle.command_collect.specs.Collect.{CollectRefused, CollectRefusedBy, IsCollected, IsCollectedText, collect_names};

use crate::gather::gather;
use crate::reports::read_texts;
use cbi_base::{Memory, Store};
use cbi_options::CollectWords;
use collector::write_collection;
use command_base::{Fault, Made, Work};
use std::alloc::Global;

/// A call of `collect`, with its words.
#[derive(Debug, Drop)]
pub struct CollectCall {
    /// What it is asked for.
    pub words: CollectWords,
}

// The text of a collection of the program, to which the reports of the files were added.
impl Work for CollectCall {
    ghost names = { λ w. collect_names w.words };

    ghost due = { λ w held. IsCollectedText held w.words };

    ghost due_said = { λ w held said. IsCollected held w.words said };

    ghost says = { λ _ _. Unit {0} };

    ghost refused = { λ w. CollectRefused w.words };

    ghost refused_by = { λ w. CollectRefusedBy w.words };

    fn make<S: Store>(&self, alloc: Global, store: &mut S) -> Result<Made, Fault> {
        let texts = match read_texts(alloc, store, &self.words) {
            Ok(texts) => texts,
            Err(fault) => return Err(fault),
        };
        let gathered = match gather(alloc, &texts) {
            Ok(gathered) => gathered,
            Err(fault) => return Err(fault),
        };
        match write_collection(alloc, &gathered.collection) {
            Ok(text) => Ok(Made {
                text,
                said: gathered.said(),
            }),
            Err(Memory) => Err(Fault::Memory),
        }
    }
}
