ghost use Rattle.command_lines.specs.Lines.{AreLinesListed, LinesRefused, LinesRefusedBy, lines_names};

use cbi_base::{Memory, Store};
use cbi_options::LinesWords;
use command_base::{Done, Fault, Made, Work};
use command_inputs::read_runs;
use std::alloc::Global;
use suspicious_lines::lines_of;

/// A call of `lines`, with its words.
#[derive(Debug, Drop)]
pub struct LinesCall {
    /// What it is asked for.
    pub words: LinesWords,
}

// The suspicious lines of the program by the runs of the collection. It is refused as `rank` is.
impl Work for LinesCall {
    ghost names = { λ w. lines_names w.words };

    ghost due = { λ w held. AreLinesListed held w.words };

    ghost due_said = { λ w held _. AreLinesListed held w.words };

    ghost refused = { λ w. LinesRefused w.words };

    ghost refused_by = { λ w. LinesRefusedBy w.words };

    fn make<S: Store>(&self, alloc: Global, store: &mut S) -> Result<Made, Fault> {
        let (program, collection) = match read_runs(
            alloc,
            store,
            &self.words.program,
            &self.words.collection,
        ) {
            Ok(runs) => runs,
            Err(fault) => return Err(fault),
        };
        match lines_of(
            alloc,
            &collection,
            program.table(),
            self.words.most,
            self.words.apart,
        ) {
            Ok(text) => Ok(Made {
                text,
                said: Done::Nothing,
            }),
            Err(Memory) => Err(Fault::Memory),
        }
    }
}
