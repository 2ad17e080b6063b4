ghost use Rattle.command_cards.specs.Cards.{IsDealt, CardsRefused, CardsRefusedBy, cards_names};

use affinity::cards;
use cbi_base::{Memory, Store};
use cbi_options::CardsWords;
use command_base::{Done, Fault, Made, Work};
use command_inputs::read_runs;
use std::alloc::Global;

/// A call of `cards`, with its words.
#[derive(Debug, Drop)]
pub struct CardsCall {
    /// What it is asked for.
    pub words: CardsWords,
}

// A card of each predicate of the program that a ranking of the runs of the collection lists, where each leader's runs are discarded.
impl Work for CardsCall {
    ghost names = { λ w. cards_names w.words };

    ghost due = { λ w held. IsDealt held w.words };

    ghost due_said = { λ w held _. IsDealt held w.words };

    ghost refused = { λ w. CardsRefused w.words };

    ghost refused_by = { λ w. CardsRefusedBy w.words };

    fn make<S: Store>(&self, alloc: Global, store: &mut S) -> Result<Made, Fault> {
        let (program, collection) = match read_runs(
            alloc,
            store,
            &self.words.program,
            &self.words.collection,
        ) {
            Ok(runs) => runs,
            Err(fault) => return Err(fault),
        };
        match cards(alloc, &collection, program.table()) {
            Ok(text) => Ok(Made {
                text,
                said: Done::Nothing,
            }),
            Err(Memory) => Err(Fault::Memory),
        }
    }
}
