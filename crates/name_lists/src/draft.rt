ghost use Rattle.std.specs.Prelude.{◌≡◌, ◌+◌, ◌<◌, ◌≤◌, ◌↔◌, IsTrue, MatchOption, length};
ghost use Rattle.name_lists.specs.Grammar.{start_of_list};
ghost use Rattle.name_lists.specs.List.{IsFileName, greatest_run, most_names};

use cbi_base::{LineError, LineReader, Seq};
use cbi_options::Word;
use std::alloc::Global;

/// The most names of a list.
const MOST_NAMES: usize = 100_000;

/// The most bytes of a name.
const MOST_BYTES: usize = 4_095;

/// The greatest number of a run.
const GREATEST_RUN: u64 = 4_294_967_295;

/// A list as far as it was read: the number of its first line's run, and its names.
#[derive(Drop)]
pub struct Draft {
    pub alloc: Global,
    pub first: u32,
    pub names: Seq<Word>,
}

/// The line as the name of a file, where it can be one.
fn file_name_in(line: &[u8]) -> Option<&str>
    ensures { MatchOption result (¬ (IsFileName line.now)) (λ name. (name.now ≡ line.now) × IsFileName line.now) }
{
    if line.is_empty() || line.len() > MOST_BYTES || line.contains(&0) {
        return None;
    }
    str::from_utf8(line).ok()
}

impl Draft {
    /// Nothing is read yet.
    pub fn new(alloc: Global, first: u32) -> Draft
        ensures { result ≡ start_of_list alloc first }
    {
        Draft {
            alloc,
            first,
            names: Seq::new(alloc),
        }
    }

    /// The names that were read.
    pub fn into_names(self) -> Seq<Word>
        ensures { result ≡ self.names }
    {
        let Draft {
            alloc: _,
            first: _,
            names,
        } = self;
        names
    }

    // Whether there is room for one name more, and a number for its run.
    fn has_room(&self) -> bool
        ensures { IsTrue result ↔ ((length self.now.names < most_names) × (self.now.first + length self.now.names ≤ greatest_run)) }
    {
        self.names.len() < MOST_NAMES
            && u64::from(self.first) + self.names.len() as u64 <= GREATEST_RUN
    }
}

impl LineReader for Draft {
    ghost use Rattle.name_lists.specs.Grammar.{NameFollows, ListEnds};

    ghost follows = { NameFollows };

    ghost ends = { ListEnds };

    fn take(&mut self, line: &[u8]) -> Result<(), LineError> {
        if !self.has_room() {
            return Err(LineError::Bad);
        }
        let Some(text) = file_name_in(line) else {
            return Err(LineError::Bad);
        };
        let Ok(name) = Word::new(self.alloc, text) else {
            return Err(LineError::Memory);
        };
        let Ok(()) = self.names.push(name) else {
            return Err(LineError::Memory);
        };
        Ok(())
    }

    fn may_end(&self) -> bool {
        !self.names.is_empty()
    }
}
