ghost use Rattle.std.specs.Prelude.{◌≡◌, true, IfOk, string_bytes};
ghost use Rattle.cbi_usage.specs.UsageText.{bad_value_line, is_usage};

use cbi_base::Memory;
use clap::{Arg, ArgAction};
use std::alloc::{AllocError, Global};

/// A word that a command takes, and what is said of it.
#[derive(Clone, Copy)]
enum Row {
    /// An option that may be given: its name and its value's.
    Option(&'static str, &'static str, &'static str),
    /// An option that must be given.
    Needed(&'static str, &'static str, &'static str),
    /// A positional, which must be given.
    Positional(&'static str, &'static str),
    /// A positional of which there may be several.
    Several(&'static str, &'static str),
}

/// What is said of the policy of a ranking.
const POLICY: &str = "What is done after each leader: all, failing or relabel [default: all]";

const TRANSFORM: [Row; 4] = [
    Row::Needed(
        "mode",
        "MODE",
        "The program's sites: plain has none, full looks at each visit, sampled at those that a bank samples",
    ),
    Row::Option(
        "schemes",
        "LIST",
        "Which sites: some of branches,returns,pairs [default: all]",
    ),
    Row::Option(
        "part",
        "I/N",
        "Only a part of the sites: every Nth from the Ith on",
    ),
    Row::Positional("C", "The text's file"),
];

const RUN: [Row; 7] = [
    Row::Option(
        "bank",
        "B",
        "The bank's file; without it the bank is the one number 1",
    ),
    Row::Option(
        "input",
        "I",
        "The input's file; without it the input is empty",
    ),
    Row::Option("expect", "FILE", "A file that the output is to equal"),
    Row::Option(
        "turns",
        "N",
        "The bound of turns, at most 100000000 [default: 1000000]",
    ),
    Row::Option(
        "run",
        "R",
        "The run's number, from 1 to 4294967295 [default: 1]",
    ),
    Row::Option("report", "F", "The file to which the report is written"),
    Row::Positional("PROG", "The program file"),
];

const BANK: [Row; 4] = [
    Row::Needed("rate", "D", "One word in so many is hit, from 1 to 65536"),
    Row::Needed("count", "N", "So many numbers are made, from 1 to 65536"),
    Row::Needed("seed", "S", "The generator's seed"),
    Row::Option("stream", "I", "The generator's stream [default: 0]"),
];

const COLLECT: [Row; 2] = [
    Row::Needed("program", "PROG", "The program file"),
    Row::Several("FILE", "A report, or a collection of reports"),
];

const RUNS: [Row; 7] = [
    Row::Needed(
        "inputs",
        "LIST",
        "The file that lists the inputs, a name on each line",
    ),
    Row::Option(
        "expect",
        "LIST",
        "The file that lists files which the outputs are to equal, a name on each line",
    ),
    Row::Needed(
        "rate",
        "D",
        "One visit in so many is sampled, from 1 to 65536",
    ),
    Row::Needed(
        "seed",
        "S",
        "The generator's seed; its stream is the run's number",
    ),
    Row::Option(
        "first",
        "R",
        "The number of the first run, from 1 to 4294967295 [default: 1]",
    ),
    Row::Option(
        "turns",
        "N",
        "The bound of turns of each run, at most 100000000 [default: 1000000]",
    ),
    Row::Positional("PROG", "The program file"),
];

const RANK: [Row; 3] = [
    Row::Option("policy", "POLICY", POLICY),
    Row::Positional("PROG", "The program file"),
    Row::Positional("COLL", "The collection's file"),
];

const PAIRS: [Row; 2] = [
    Row::Positional("PROG", "The program file"),
    Row::Positional("COLL", "The collection's file"),
];

/// What is said of how many lines or bugs are listed.
const MOST: &str = "So many are listed at most, from 1 to 1000 [default: 10]";

const LINES: [Row; 4] = [
    Row::Option("most", "M", MOST),
    Row::Option(
        "apart",
        "L",
        "A line is left out where one of its function, at most so many lines away, stands before it, from 0 to 100 [default: 3]",
    ),
    Row::Positional("PROG", "The program file"),
    Row::Positional("COLL", "The collection's file"),
];

const BUGS: [Row; 4] = [
    Row::Option("most", "M", MOST),
    Row::Option(
        "also",
        "K",
        "So many places are listed of each bug at most, from 1 to 100 [default: 3]",
    ),
    Row::Positional("PROG", "The program file"),
    Row::Positional("COLL", "The collection's file"),
];

const CARDS: [Row; 2] = [
    Row::Positional("PROG", "The program file"),
    Row::Positional("COLL", "The collection's file"),
];

const SESSION: [Row; 3] = [
    Row::Needed("program", "PROG", "The program file"),
    Row::Option("policy", "POLICY", POLICY),
    Row::Positional("EDITS", "The file of the edits"),
];

const WIDEN: [Row; 4] = [
    Row::Needed("whole", "WHOLE", "The file of the whole program"),
    Row::Needed("part", "I/N", "Which part of the sites the program has"),
    Row::Positional(
        "PARTPROG",
        "The file of the program with a part of the sites",
    ),
    Row::Positional("COLL", "The file of a collection of its runs"),
];

const STUDY: [Row; 6] = [
    Row::Needed("runs", "N", "So many runs are made, from 1 to 100000"),
    Row::Needed("seed", "S", "The generator's seed"),
    Row::Needed(
        "rate",
        "D",
        "One visit in so many is sampled, from 1 to 65536",
    ),
    Row::Needed(
        "turns",
        "T",
        "The bound of turns of each run, at most 100000000",
    ),
    Row::Option("policy", "POLICY", POLICY),
    Row::Positional("C", "The text's file"),
];

/// An option with a value.
fn option(
    alloc: Global,
    name: &'static str,
    value: &'static str,
    help: &'static str,
) -> Arg<'static> {
    Arg::new(alloc, name)
        .long(name)
        .value_name(value)
        .help(help)
        .action(ArgAction::Set)
}

/// A positional that must be given.
fn positional(alloc: Global, name: &'static str, help: &'static str) -> Arg<'static> {
    Arg::new(alloc, name).required(true).help(help)
}

/// The argument of a row.
fn arg(alloc: Global, row: Row) -> Arg<'static> {
    match row {
        Row::Option(name, value, help) => option(alloc, name, value, help),
        Row::Needed(name, value, help) => option(alloc, name, value, help).required(true),
        Row::Positional(name, help) => positional(alloc, name, help),
        Row::Several(name, help) => positional(alloc, name, help)
            .num_args(1..)
            .action(ArgAction::Append),
    }
}

// A command of these words. `--help` is none of them.
fn command(
    alloc: Global,
    name: &'static str,
    about: &'static str,
    rows: &[Row],
) -> Result<clap::Command<'static>, AllocError> {
    let mut made = clap::Command::new(alloc, name)
        .about(about)
        .disable_help_flag(true)
        .disable_help_subcommand(true);
    for row in rows {
        made = made.arg(arg(alloc, *row))?;
    }
    Ok(made)
}

/// A command: its name, what is said of it, its words, and its name behind the tool's.
type Line = (&'static str, &'static str, &'static [Row], &'static str);

const COMMANDS: [Line; 13] = [
    (
        "transform",
        "Compile a C text to a program file",
        &TRANSFORM,
        "cbi transform",
    ),
    (
        "run",
        "Run a program file; its output goes to standard output",
        &RUN,
        "cbi run",
    ),
    ("bank", "Make a bank", &BANK, "cbi bank"),
    (
        "collect",
        "Collect reports of runs of a program",
        &COLLECT,
        "cbi collect",
    ),
    (
        "runs",
        "Run a program on a list of inputs, and collect the reports",
        &RUNS,
        "cbi runs",
    ),
    (
        "rank",
        "Rank the predicates of a program by the runs of a collection",
        &RANK,
        "cbi rank",
    ),
    (
        "pairs",
        "Find the two predicates that point best together",
        &PAIRS,
        "cbi pairs",
    ),
    (
        "lines",
        "List suspicious lines, by the strength of their best predicates",
        &LINES,
        "cbi lines",
    ),
    (
        "bugs",
        "List bugs, each with the failing runs that it explains",
        &BUGS,
        "cbi bugs",
    ),
    (
        "cards",
        "Deal a card for each ranked predicate, with those nearest to it",
        &CARDS,
        "cbi cards",
    ),
    (
        "session",
        "Follow a file of edits of a collection, and rank where it says so",
        &SESSION,
        "cbi session",
    ),
    (
        "widen",
        "Turn a collection of a part's program into one of the whole program",
        &WIDEN,
        "cbi widen",
    ),
    (
        "study",
        "Make runs of a C text, and rank its predicates by them",
        &STUDY,
        "cbi study",
    ),
];

// The tool with one more command.
fn with_line(
    alloc: Global,
    tool: clap::Command<'static>,
    line: Line,
) -> Result<clap::Command<'static>, AllocError> {
    let (name, about, rows, _) = line;
    let made = command(alloc, name, about, rows)?;
    tool.subcommand(made)
}

fn tool_line(alloc: Global) -> Result<clap::Command<'static>, AllocError> {
    let mut tool = command(alloc, "cbi", "Cooperative bug isolation", &[])?;
    for line in COMMANDS {
        tool = with_line(alloc, tool, line)?;
    }
    Ok(tool)
}

// The text that clap writes of the tool.
fn tool_text(alloc: Global) -> Result<String, Memory> {
    let mut tool = tool_line(alloc)?;
    Ok(tool.render_help()?)
}

// The text that clap writes of a command.
fn line_text(alloc: Global, line: Line) -> Result<String, Memory> {
    let (name, about, rows, full) = line;
    let mut made = command(alloc, name, about, rows)?.bin_name(full)?;
    Ok(made.render_help()?)
}

// The text that clap writes of the command, or of the tool, where the word names no command.
fn text_of(alloc: Global, word: &str) -> Result<String, Memory> {
    for line in COMMANDS {
        if line.0 == word {
            return line_text(alloc, line);
        }
    }
    tool_text(alloc)
}

// Whether a text is whole lines, of which the first doesn't begin as the lines that tell what went wrong do.
fn is_usage(text: &str) -> bool
    ensures { result ≡ is_usage text.now }
{
    let bytes = text.as_bytes();
    bytes.ends_with(b"\n".as_slice()) && !bytes.starts_with(b"cbi: ".as_slice())
}

/// How the command is used, or the tool, where the word names no command. No contract of clap's says what it writes, so that is looked at.
pub fn usage(alloc: Global, word: &str) -> Result<String, Memory>
    ensures { IfOk result (λ text. is_usage (string_bytes text) ≡ true) }
{
    let text = text_of(alloc, word)?;
    if is_usage(text.as_str()) {
        return Ok(text);
    }
    Ok(String::from_str(alloc, "Usage: cbi COMMAND\n")?)
}

/// The line that tells of a value that its option doesn't take.
pub fn bad_value_line(alloc: Global, option: &str) -> Result<String, Memory>
    ensures { IfOk result (λ text. string_bytes text ≡ bad_value_line option.now) }
{
    Ok(format!(in alloc; "cbi: bad value of {option}\n")?)
}
