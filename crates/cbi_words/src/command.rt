use cbi_options::{
    BankWords, BugsWords, CardsWords, CollectWords, LinesWords, PairsWords, RankWords, RunWords,
    RunsWords, SessionWords, StudyWords, TransformWords, WidenWords,
};

/// What the words ask for. A command that isn't built has no variant.
#[derive(Debug, Drop)]
pub enum Command {
    /// `transform`: compiles a text.
    Transform(TransformWords),
    /// `run`: runs a program file.
    Run(RunWords),
    /// `bank`: makes a bank.
    Bank(BankWords),
    /// `collect`: collects reports of runs of a program.
    Collect(CollectWords),
    /// `runs`: runs a program on each input of a list, and collects the reports.
    Runs(RunsWords),
    /// `rank`: ranks the predicates of a program by the runs of a collection.
    Rank(RankWords),
    /// `study`: makes runs of a text, and ranks its predicates by them.
    Study(StudyWords),
    /// `session`: follows the edits of a collection, and ranks where they say so.
    Session(SessionWords),
    /// `widen`: makes a collection of the whole program from one of a program with a part of its sites.
    Widen(WidenWords),
    /// `cards`: deals a card for each ranked predicate.
    Cards(CardsWords),
    /// `pairs`: finds the best conjunction of two predicates.
    Pairs(PairsWords),
    /// `lines`: lists suspicious lines, by the strength of their best predicates.
    Lines(LinesWords),
    /// `bugs`: lists bugs, each with the failing runs that it explains.
    Bugs(BugsWords),
}
