ghost use Rattle.flow.specs.Sites.{PartFits};
ghost use Rattle.command_widen.specs.Widen.{IsWidened, WidenRefused, WidenRefusedBy, widen_names};

use crate::texts::read_texts;
use crate::wide::widen_texts;
use cbi_base::{Memory, Store};
use cbi_options::WidenWords;
use collector::write_collection;
use command_base::{Done, Fault, Made, Work};
use std::alloc::Global;

/// A call of `widen`, with its words.
#[derive(Debug, Drop)]
pub struct WidenCall {
    /// What it is asked for.
    pub words: WidenWords,
}

// The text of a collection of the whole program: the runs of the part's program, under the whole one's identity and with the numbers that the sites have
// there. A run keeps its number, its outcome, its label and its work.
impl Work for WidenCall {
    ghost may = { λ w. PartFits w.words.part };

    ghost names = { λ w. widen_names w.words };

    ghost due = { λ w held. IsWidened held w.words };

    ghost due_said = { λ w held _. IsWidened held w.words };

    ghost refused = { λ w. WidenRefused w.words };

    ghost refused_by = { λ w. WidenRefusedBy w.words };

    fn make<S: Store>(&self, alloc: Global, store: &mut S) -> Result<Made, Fault> {
        let texts = match read_texts(alloc, store, &self.words) {
            Ok(texts) => texts,
            Err(fault) => return Err(fault),
        };
        let wide = match widen_texts(alloc, &texts, self.words.part) {
            Ok(wide) => wide,
            Err(fault) => return Err(fault),
        };
        match write_collection(alloc, &wide) {
            Ok(text) => Ok(Made {
                text,
                said: Done::Nothing,
            }),
            Err(Memory) => Err(Fault::Memory),
        }
    }
}
