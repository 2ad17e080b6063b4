ghost use Rattle.command_session.specs.Session.{IsReplayed, SessionRefused, SessionRefusedBy, session_names};

use crate::replayed::{read_texts, replay_texts};
use cbi_base::Store;
use cbi_options::SessionWords;
use command_base::{Done, Fault, Made, Work};
use std::alloc::Global;

/// A call of `session`, with its words.
#[derive(Debug, Drop)]
pub struct SessionCall {
    /// What it is asked for.
    pub words: SessionWords,
}

// The rankings that the edits ask for, of what is held then, where they are done one after another. All are made before the first is written.
impl Work for SessionCall {
    ghost names = { λ w. session_names w.words };

    ghost due = { λ w held. IsReplayed held w.words };

    ghost due_said = { λ w held _. IsReplayed held w.words };

    ghost refused = { λ w. SessionRefused w.words };

    ghost refused_by = { λ w. SessionRefusedBy w.words };

    fn make<S: Store>(&self, alloc: Global, store: &mut S) -> Result<Made, Fault> {
        let texts = match read_texts(alloc, store, &self.words) {
            Ok(texts) => texts,
            Err(fault) => return Err(fault),
        };
        match replay_texts(alloc, &texts, self.words.policy) {
            Ok(text) => Ok(Made {
                text,
                said: Done::Nothing,
            }),
            Err(fault) => Err(fault),
        }
    }
}
