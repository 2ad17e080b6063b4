ghost use Rattle.std.specs.Prelude.{◌≤◌};
ghost use Rattle.command_bugs.specs.Bugs.{AreBugsListed, BugsRefused, BugsRefusedBy, bugs_names};

use bug_rounds::bugs_of;
use cbi_base::{Memory, Store};
use cbi_options::BugsWords;
use command_base::{Done, Fault, Made, Work};
use command_inputs::read_runs;
use std::alloc::Global;

/// A call of `bugs`, with its words.
#[derive(Debug, Drop)]
pub struct BugsCall {
    /// What it is asked for.
    pub words: BugsWords,
}

// The bugs of the program by the runs of the collection. It is refused as `rank` is.
impl Work for BugsCall {
    ghost may = { λ w. 1 ≤ w.words.also };

    ghost names = { λ w. bugs_names w.words };

    ghost due = { λ w held. AreBugsListed held w.words };

    ghost due_said = { λ w held _. AreBugsListed held w.words };

    ghost refused = { λ w. BugsRefused w.words };

    ghost refused_by = { λ w. BugsRefusedBy w.words };

    fn make<S: Store>(&self, alloc: Global, store: &mut S) -> Result<Made, Fault> {
        let (program, collection) = match read_runs(
            alloc,
            store,
            &self.words.program,
            &self.words.collection,
        ) {
            Ok(runs) => runs,
            Err(fault) => return Err(fault),
        };
        match bugs_of(
            alloc,
            &collection,
            program.table(),
            self.words.most,
            self.words.also,
        ) {
            Ok(text) => Ok(Made {
                text,
                said: Done::Nothing,
            }),
            Err(Memory) => Err(Fault::Memory),
        }
    }
}
