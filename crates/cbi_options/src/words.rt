use crate::schemes::Mode;
use crate::word::Word;
use cbi_base::{Policy, Seq};
use flow::{Part, Schemes};

/// What `transform` is asked for.
#[derive(Debug, Drop)]
pub struct TransformWords {
    /// To which program.
    pub mode: Mode,
    /// Of which schemes its sites are; a plain program has none.
    pub schemes: Schemes,
    /// With which part of these sites; without it with all. A plain program has none.
    pub part: Option<Part>,
    /// The name of the text's file.
    pub text: Word,
}

/// What `run` is asked for.
#[derive(Debug, Drop)]
pub struct RunWords {
    /// The name of the bank's file; without it the bank is the one number 1.
    pub bank: Option<Word>,
    /// The name of the input's file; without it the input is empty.
    pub input: Option<Word>,
    /// The name of the file that the output is to equal; without it any output is as it should be.
    pub expect: Option<Word>,
    /// The bound of turns, at most 100,000,000.
    pub turns: u32,
    /// The run's number, at least 1.
    pub run: u32,
    /// The name under which the report is written; without it none is.
    pub report: Option<Word>,
    /// The name of the program file.
    pub program: Word,
}

/// What `bank` is asked for.
#[derive(Clone, Copy, Debug)]
pub struct BankWords {
    /// From 1 to 65,536: one word in so many is hit.
    pub rate: u32,
    /// From 1 to 65,536: so many numbers are made.
    pub count: u32,
    /// The seed of the generator.
    pub seed: u64,
    /// The generator's stream.
    pub stream: u64,
}

/// What `collect` is asked for.
#[derive(Debug, Drop)]
pub struct CollectWords {
    /// The name of the program file.
    pub program: Word,
    /// The names of the files of reports, of which there is one at least.
    pub files: Seq<Word>,
}

/// What `runs` is asked for.
#[derive(Debug, Drop)]
pub struct RunsWords {
    /// The name of the file of the list of inputs.
    pub inputs: Word,
    /// The name of the file of the list of files that the outputs are to equal; without it any output is as it should be.
    pub expect: Option<Word>,
    /// From 1 to 65,536: the mean distance of sampled visits.
    pub rate: u32,
    /// The seed of each run's generator; its stream is the run's number.
    pub seed: u64,
    /// The number of the first run, at least 1.
    pub first: u32,
    /// The bound of turns of each run, at most 100,000,000.
    pub turns: u32,
    /// The name of the program file.
    pub program: Word,
}

/// What `rank` is asked for.
#[derive(Debug, Drop)]
pub struct RankWords {
    /// What is done after each leader.
    pub policy: Policy,
    /// The name of the program file.
    pub program: Word,
    /// The name of the collection's file.
    pub collection: Word,
}

/// What `study` is asked for.
#[derive(Debug, Drop)]
pub struct StudyWords {
    /// From 1 to 100,000: so many runs are made.
    pub runs: u32,
    /// The seed of the generator.
    pub seed: u64,
    /// From 1 to 65,536: the mean distance of sampled visits.
    pub rate: u32,
    /// The bound of turns of each run, at most 100,000,000.
    pub turns: u32,
    /// What is done after each leader.
    pub policy: Policy,
    /// The name of the text's file.
    pub text: Word,
}

/// What `session` is asked for.
#[derive(Debug, Drop)]
pub struct SessionWords {
    /// The name of the program file.
    pub program: Word,
    /// What is done after each leader.
    pub policy: Policy,
    /// The name of the file of the edits.
    pub edits: Word,
}

/// What `widen` is asked for.
#[derive(Debug, Drop)]
pub struct WidenWords {
    /// The name of the whole program's file.
    pub whole: Word,
    /// Which part the other program has.
    pub part: Part,
    /// The name of that program's file.
    pub program: Word,
    /// The name of the collection's file.
    pub collection: Word,
}

/// What `cards` is asked for.
#[derive(Debug, Drop)]
pub struct CardsWords {
    /// The name of the program file.
    pub program: Word,
    /// The name of the collection's file.
    pub collection: Word,
}

/// What `pairs` is asked for.
#[derive(Debug, Drop)]
pub struct PairsWords {
    /// The name of the program file.
    pub program: Word,
    /// The name of the collection's file.
    pub collection: Word,
}

/// What `lines` is asked for.
#[derive(Debug, Drop)]
pub struct LinesWords {
    /// From 1 to 1,000: so many lines are listed at most.
    pub most: u32,
    /// At most 100: a line is left out where one of its function, so many lines away at most, stands before it.
    pub apart: u32,
    /// The name of the program file.
    pub program: Word,
    /// The name of the collection's file.
    pub collection: Word,
}

/// What `bugs` is asked for.
#[derive(Debug, Drop)]
pub struct BugsWords {
    /// From 1 to 1,000: so many bugs are listed at most.
    pub most: u32,
    /// From 1 to 100: so many places a bug has at most.
    pub also: u32,
    /// The name of the program file.
    pub program: Word,
    /// The name of the collection's file.
    pub collection: Word,
}
