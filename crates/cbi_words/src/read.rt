ghost use Rattle.std.specs.Prelude.{◌≡◌, None, Some, IfOk, map};
ghost use Rattle.cbi_usage.specs.UsageText.{IsUsageText};
ghost use Rattle.cbi_options.specs.Answers.{ReadAs};
ghost use Rattle.cbi_options.specs.Options.{value_of};
ghost use Rattle.cbi_options.specs.WordRule.{texts_of};
ghost use Rattle.cbi_words.specs.Answers.{OnUsage};
ghost use Rattle.cbi_words.specs.BadValue.{bad_bank, bad_bugs, bad_in, bad_lines, bad_rank, bad_run, bad_runs, bad_session};
ghost use Rattle.cbi_words.specs.BadValue.{bad_study, bad_transform, bad_value, bad_widen, later_bad_in, listing_bad_in};
ghost use Rattle.cbi_words.specs.Reading.{bank_of, bugs_of, cards_of, collect_of, command_in, given_after, later_command_in, lines_of, listed_runs_of};
ghost use Rattle.cbi_words.specs.Reading.{command_of_words, listing_command_in, pairs_of, rank_of, run_of, session_of, study_of, transform_of, widen_of};
ghost use Rattle.cbi_words.specs.Within.{IsWithin};

use crate::command::Command;
use crate::error::WordsError;
use cbi_base::{Memory, Policy};
use cbi_options::{
    BankWords, Bounds, BugsWords, CardsWords, CollectWords, Fault, Given, LinesWords, PairsWords,
    RankWords, RunWords, RunsWords, SessionWords, StudyWords, TransformWords, WidenWords, Word,
    cut, mode_in, number_in, number_or, policy_or, schemes_or, share_in, share_or,
};
use cbi_usage::{bad_value_line, usage};
use std::alloc::Global;

/// The bound of turns, where the words give none.
const DEFAULT_TURNS: u64 = 1000000;

/// The bounds that the words may give to a bound of turns.
const TURNS: Bounds = Bounds {
    least: 0,
    most: 100000000,
};

/// The bounds of a run's number.
const RUN_NUMBERS: Bounds = Bounds {
    least: 1,
    most: 4294967295,
};

/// The bounds of how many runs are made.
const RUN_COUNTS: Bounds = Bounds {
    least: 1,
    most: 100000,
};

/// The bounds of a rate and of a bank's length.
const RATES: Bounds = Bounds {
    least: 1,
    most: 65536,
};

/// The bounds of a seed and of a stream.
const SEEDS: Bounds = Bounds {
    least: 0,
    most: 18446744073709551615,
};

/// The bounds of how many places are listed.
const MOST: Bounds = Bounds {
    least: 1,
    most: 1000,
};

/// The bounds of how far apart listed lines are.
const APART: Bounds = Bounds {
    least: 0,
    most: 100,
};

/// The bounds of how many places a bug has.
const ALSO: Bounds = Bounds {
    least: 1,
    most: 100,
};

// What is given after `transform`.
fn transform_of(given: &Given) -> Result<Command, Fault>
    ensures reads { ReadAs result (transform_of given.now) (bad_transform given.now) }
    ensures within { IfOk result IsWithin }
{
    let [text] = given.positionals.as_slice() else {
        return Err(Fault::Usage);
    };
    let Some(mode) = given.value_of("--mode") else {
        return Err(Fault::Usage);
    };
    let mode = mode_in("--mode", mode)?;
    let schemes = schemes_or(given, "--schemes")?;
    let part = share_or(given, "--part")?;
    Ok(Command::Transform(TransformWords {
        mode,
        schemes,
        part,
        text: text.try_clone()?,
    }))
}

/// The values of two options, where they are given.
#[derive(Debug, Drop)]
struct Two {
    first: Option<Word>,
    second: Option<Word>,
}

// Copies of those values.
fn two_of(alloc: Global, given: &Given, first: &str, second: &str) -> Result<Two, Memory>
    ensures first { IfOk result (λ two. two.first ≡ value_of first.now given.now.options) }
    ensures second { IfOk result (λ two. two.second ≡ value_of second.now given.now.options) }
{
    let first = given.copy_of(alloc, first)?;
    let second = given.copy_of(alloc, second)?;
    Ok(Two { first, second })
}

// What is given after `run`.
fn run_of(alloc: Global, given: &Given) -> Result<Command, Fault>
    ensures reads { ReadAs result (run_of given.now) (bad_run given.now) }
    ensures within { IfOk result IsWithin }
{
    let [program] = given.positionals.as_slice() else {
        return Err(Fault::Usage);
    };
    let turns = number_or(given, "--turns", DEFAULT_TURNS, TURNS)?;
    let run = number_or(given, "--run", 1, RUN_NUMBERS)?;
    let read = two_of(alloc, given, "--bank", "--input")?;
    let other = two_of(alloc, given, "--expect", "--report")?;
    let program = program.try_clone()?;
    let Two {
        first: bank,
        second: input,
    } = read;
    let Two {
        first: expect,
        second: report,
    } = other;
    Ok(Command::Run(RunWords {
        bank,
        input,
        expect,
        turns: turns as u32,
        run: run as u32,
        report,
        program,
    }))
}

// What is given after `bank`.
fn bank_of(given: &Given) -> Result<Command, Fault>
    ensures reads { ReadAs result (bank_of given.now) (bad_bank given.now) }
    ensures within { IfOk result IsWithin }
{
    if !given.positionals.is_empty() {
        return Err(Fault::Usage);
    }
    let Some(rate) = given.value_of("--rate") else {
        return Err(Fault::Usage);
    };
    let Some(count) = given.value_of("--count") else {
        return Err(Fault::Usage);
    };
    let Some(seed) = given.value_of("--seed") else {
        return Err(Fault::Usage);
    };
    let rate = number_in("--rate", rate, RATES)?;
    let count = number_in("--count", count, RATES)?;
    let seed = number_in("--seed", seed, SEEDS)?;
    let stream = number_or(given, "--stream", 0, SEEDS)?;
    Ok(Command::Bank(BankWords {
        rate: rate as u32,
        count: count as u32,
        seed,
        stream,
    }))
}

// What is given after `collect`.
fn collect_of(alloc: Global, given: Given) -> Result<Command, Fault>
    ensures reads { ReadAs result (collect_of given) None }
    ensures within { IfOk result IsWithin }
{
    let Some(program) = given.copy_of(alloc, "--program")? else {
        return Err(Fault::Usage);
    };
    let Given { positionals, .. } = given;
    if positionals.is_empty() {
        return Err(Fault::Usage);
    }
    Ok(Command::Collect(CollectWords {
        program,
        files: positionals,
    }))
}

// What is given after `runs`.
fn listed_runs_of(alloc: Global, given: &Given) -> Result<Command, Fault>
    ensures reads { ReadAs result (listed_runs_of given.now) (bad_runs given.now) }
    ensures within { IfOk result IsWithin }
{
    let [program] = given.positionals.as_slice() else {
        return Err(Fault::Usage);
    };
    let Some(inputs) = given.value_of("--inputs") else {
        return Err(Fault::Usage);
    };
    let Some(rate) = given.value_of("--rate") else {
        return Err(Fault::Usage);
    };
    let Some(seed) = given.value_of("--seed") else {
        return Err(Fault::Usage);
    };
    let rate = number_in("--rate", rate, RATES)?;
    let seed = number_in("--seed", seed, SEEDS)?;
    let first = number_or(given, "--first", 1, RUN_NUMBERS)?;
    let turns = number_or(given, "--turns", DEFAULT_TURNS, TURNS)?;
    Ok(Command::Runs(RunsWords {
        inputs: Word::new(alloc, inputs)?,
        expect: given.copy_of(alloc, "--expect")?,
        rate: rate as u32,
        seed,
        first: first as u32,
        turns: turns as u32,
        program: program.try_clone()?,
    }))
}

// What is given after `rank`.
fn rank_of(given: &Given) -> Result<Command, Fault>
    ensures reads { ReadAs result (rank_of given.now) (bad_rank given.now) }
    ensures within { IfOk result IsWithin }
{
    let [program, collection] = given.positionals.as_slice() else {
        return Err(Fault::Usage);
    };
    let policy = policy_or(given, "--policy", Policy::All)?;
    Ok(Command::Rank(RankWords {
        policy,
        program: program.try_clone()?,
        collection: collection.try_clone()?,
    }))
}

// What is given after `study`.
fn study_of(given: &Given) -> Result<Command, Fault>
    ensures reads { ReadAs result (study_of given.now) (bad_study given.now) }
    ensures within { IfOk result IsWithin }
{
    let [text] = given.positionals.as_slice() else {
        return Err(Fault::Usage);
    };
    let Some(runs) = given.value_of("--runs") else {
        return Err(Fault::Usage);
    };
    let Some(seed) = given.value_of("--seed") else {
        return Err(Fault::Usage);
    };
    let Some(rate) = given.value_of("--rate") else {
        return Err(Fault::Usage);
    };
    let Some(turns) = given.value_of("--turns") else {
        return Err(Fault::Usage);
    };
    let runs = number_in("--runs", runs, RUN_COUNTS)?;
    let seed = number_in("--seed", seed, SEEDS)?;
    let rate = number_in("--rate", rate, RATES)?;
    let turns = number_in("--turns", turns, TURNS)?;
    let policy = policy_or(given, "--policy", Policy::All)?;
    Ok(Command::Study(StudyWords {
        runs: runs as u32,
        seed,
        rate: rate as u32,
        turns: turns as u32,
        policy,
        text: text.try_clone()?,
    }))
}

// What is given after `session`.
fn session_of(alloc: Global, given: &Given) -> Result<Command, Fault>
    ensures reads { ReadAs result (session_of given.now) (bad_session given.now) }
    ensures within { IfOk result IsWithin }
{
    let [edits] = given.positionals.as_slice() else {
        return Err(Fault::Usage);
    };
    let Some(program) = given.copy_of(alloc, "--program")? else {
        return Err(Fault::Usage);
    };
    let policy = policy_or(given, "--policy", Policy::All)?;
    Ok(Command::Session(SessionWords {
        program,
        policy,
        edits: edits.try_clone()?,
    }))
}

// What is given after `widen`.
fn widen_of(alloc: Global, given: &Given) -> Result<Command, Fault>
    ensures reads { ReadAs result (widen_of given.now) (bad_widen given.now) }
    ensures within { IfOk result IsWithin }
{
    let [program, collection] = given.positionals.as_slice() else {
        return Err(Fault::Usage);
    };
    let Some(part) = given.value_of("--part") else {
        return Err(Fault::Usage);
    };
    let Some(whole) = given.copy_of(alloc, "--whole")? else {
        return Err(Fault::Usage);
    };
    let part = share_in("--part", part)?;
    Ok(Command::Widen(WidenWords {
        whole,
        part,
        program: program.try_clone()?,
        collection: collection.try_clone()?,
    }))
}

// What is given after `cards`.
fn cards_of(given: &Given) -> Result<Command, Fault>
    ensures reads { ReadAs result (cards_of given.now) None }
    ensures within { IfOk result IsWithin }
{
    let [program, collection] = given.positionals.as_slice() else {
        return Err(Fault::Usage);
    };
    Ok(Command::Cards(CardsWords {
        program: program.try_clone()?,
        collection: collection.try_clone()?,
    }))
}

// What is given after `pairs`.
fn pairs_of(given: &Given) -> Result<Command, Fault>
    ensures reads { ReadAs result (pairs_of given.now) None }
    ensures within { IfOk result IsWithin }
{
    let [program, collection] = given.positionals.as_slice() else {
        return Err(Fault::Usage);
    };
    Ok(Command::Pairs(PairsWords {
        program: program.try_clone()?,
        collection: collection.try_clone()?,
    }))
}

// What is given after `lines`.
fn lines_of(given: &Given) -> Result<Command, Fault>
    ensures reads { ReadAs result (lines_of given.now) (bad_lines given.now) }
    ensures within { IfOk result IsWithin }
{
    let [program, collection] = given.positionals.as_slice() else {
        return Err(Fault::Usage);
    };
    let most = number_or(given, "--most", 10, MOST)?;
    let apart = number_or(given, "--apart", 3, APART)?;
    Ok(Command::Lines(LinesWords {
        most: most as u32,
        apart: apart as u32,
        program: program.try_clone()?,
        collection: collection.try_clone()?,
    }))
}

// What is given after `bugs`.
fn bugs_of(given: &Given) -> Result<Command, Fault>
    ensures reads { ReadAs result (bugs_of given.now) (bad_bugs given.now) }
    ensures within { IfOk result IsWithin }
{
    let [program, collection] = given.positionals.as_slice() else {
        return Err(Fault::Usage);
    };
    let most = number_or(given, "--most", 10, MOST)?;
    let also = number_or(given, "--also", 3, ALSO)?;
    Ok(Command::Bugs(BugsWords {
        most: most as u32,
        also: also as u32,
        program: program.try_clone()?,
        collection: collection.try_clone()?,
    }))
}

// What the words give after a command with these options.
fn asked(alloc: Global, options: &[&str], words: &[String]) -> Result<Given, Fault>
    ensures { ReadAs result (given_after (map (λ name. name.now) options.now) (texts_of words.now)) None }
{
    let Some(given) = cut(alloc, words)? else {
        return Err(Fault::Usage);
    };
    if given.has_only(options) && given.are_single() {
        Ok(given)
    } else {
        Err(Fault::Usage)
    }
}

// What is given after the name of a command.
#[tactic(auto, unfolding(crate::specs::Reading::command_in, crate::specs::BadValue::bad_in))]
fn command_in(alloc: Global, name: &str, words: &[String]) -> Result<Command, Fault>
    ensures reads { ReadAs result (command_in name.now (texts_of words.now)) (bad_in name.now (texts_of words.now)) }
    ensures within { IfOk result IsWithin }
{
    if name == "run" {
        let options = [
            "--bank", "--input", "--expect", "--turns", "--run", "--report",
        ];
        let given = asked(alloc, &options, words)?;
        return run_of(alloc, &given);
    }
    if name == "bank" {
        let options = ["--rate", "--count", "--seed", "--stream"];
        let given = asked(alloc, &options, words)?;
        return bank_of(&given);
    }
    if name == "collect" {
        let given = asked(alloc, &["--program"], words)?;
        return collect_of(alloc, given);
    }
    if name == "rank" {
        let given = asked(alloc, &["--policy"], words)?;
        return rank_of(&given);
    }
    if name == "study" {
        let options = ["--runs", "--seed", "--rate", "--turns", "--policy"];
        let given = asked(alloc, &options, words)?;
        return study_of(&given);
    }
    if name == "transform" {
        let given = asked(alloc, &["--mode", "--schemes", "--part"], words)?;
        return transform_of(&given);
    }
    later_command_in(alloc, name, words)
}

// What is given after the name of a command that looks on into collections, or of the one that makes one at once.
#[tactic(auto, unfolding(crate::specs::Reading::later_command_in, crate::specs::BadValue::later_bad_in))]
fn later_command_in(alloc: Global, name: &str, words: &[String]) -> Result<Command, Fault>
    ensures reads { ReadAs result (later_command_in name.now (texts_of words.now)) (later_bad_in name.now (texts_of words.now)) }
    ensures within { IfOk result IsWithin }
{
    if name == "session" {
        let given = asked(alloc, &["--program", "--policy"], words)?;
        return session_of(alloc, &given);
    }
    if name == "widen" {
        let given = asked(alloc, &["--whole", "--part"], words)?;
        return widen_of(alloc, &given);
    }
    if name == "runs" {
        let options = [
            "--inputs", "--expect", "--rate", "--seed", "--first", "--turns",
        ];
        let given = asked(alloc, &options, words)?;
        return listed_runs_of(alloc, &given);
    }
    if name == "cards" {
        let given = asked(alloc, &[], words)?;
        return cards_of(&given);
    }
    if name == "pairs" {
        let given = asked(alloc, &[], words)?;
        return pairs_of(&given);
    }
    listing_command_in(alloc, name, words)
}

// What is given after the name of a command that lists places.
#[tactic(auto, unfolding(crate::specs::Reading::listing_command_in, crate::specs::BadValue::listing_bad_in))]
fn listing_command_in(alloc: Global, name: &str, words: &[String]) -> Result<Command, Fault>
    ensures reads { ReadAs result (listing_command_in name.now (texts_of words.now)) (listing_bad_in name.now (texts_of words.now)) }
    ensures within { IfOk result IsWithin }
{
    if name == "lines" {
        let given = asked(alloc, &["--most", "--apart"], words)?;
        return lines_of(&given);
    }
    if name == "bugs" {
        let given = asked(alloc, &["--most", "--also"], words)?;
        return bugs_of(&given);
    }
    Err(Fault::Usage)
}

// The first word isn't looked at, and the second one is the name of the command.
fn command_of(alloc: Global, words: &[String]) -> Result<Command, Fault>
    ensures reads { ReadAs result (command_of_words (texts_of words.now)) (bad_value (texts_of words.now)) }
    ensures within { IfOk result IsWithin }
{
    let [_, name, rest @ ..] = words else {
        return Err(Fault::Usage);
    };
    command_in(alloc, name.as_str(), rest)
}

// The name of the command that the words call for, where there is one.
fn command_word(words: &[String]) -> &str {
    match words {
        [_, command, ..] => command.as_str(),
        _ => "",
    }
}

/// The command that the words read as. The first word isn't looked at, the second one is the command, and the others are options and positionals.
pub fn read_words(alloc: Global, words: &Vec<String>) -> Result<Command, WordsError>
    // What is read is what the words read as.
    ensures reads { IfOk result (λ command. command_of_words (texts_of words.now.items) ≡ Some command) }
    // Its numbers lie in their bounds.
    ensures within { IfOk result IsWithin }
    // Words are refused where they read as no command, and nowhere else.
    ensures usage { OnUsage result (λ text. command_of_words (texts_of words.now.items) ≡ None) }
    // They are told of the option whose value alone breaks the rule, or else of how the tool is used.
    ensures told { OnUsage result (λ text. IsUsageText (bad_value (texts_of words.now.items)) text) }
{
    match command_of(alloc, words.as_slice()) {
        Ok(command) => Ok(command),
        Err(Fault::Memory) => Err(WordsError::Memory),
        Err(Fault::BadValue { option }) => Err(WordsError::Usage {
            text: bad_value_line(alloc, option)?,
        }),
        Err(Fault::Usage) => Err(WordsError::Usage {
            text: usage(alloc, command_word(words.as_slice()))?,
        }),
    }
}
