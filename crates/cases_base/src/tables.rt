//! The tables of traps and refusals, and a list.
use cases_rows::Page;
use cbi_base::{ProgramId, Refusal, Seq, Trap};

const TRAPS: [Trap; 15] = [
    Trap::Overflow,
    Trap::Divide,
    Trap::Shift,
    Trap::Undefined,
    Trap::WrongKind,
    Trap::Bounds,
    Trap::Dead,
    Trap::NullUse,
    Trap::ReadOnly,
    Trap::BadFree,
    Trap::Unrelated,
    Trap::StackOverflow,
    Trap::Assertion,
    Trap::Abort,
    Trap::Internal,
];

const OURS: ProgramId = ProgramId { bytes: [0x0f; 32] };

const THEIRS: ProgramId = ProgramId { bytes: [0xa9; 32] };

const REFUSALS: [Refusal; 21] = [
    Refusal::BadByte { line: 1 },
    Refusal::BadToken { line: 20 },
    Refusal::Syntax { line: 4294967295 },
    Refusal::BadType { kind: 3, line: 7 },
    Refusal::TooLarge,
    Refusal::TooManySites,
    Refusal::BadProgram { line: 14 },
    Refusal::BadBank { line: 1 },
    Refusal::BadReport { file: 2, line: 7 },
    Refusal::Foreign {
        ours: OURS,
        theirs: THEIRS,
    },
    Refusal::Conflict { run: 5 },
    Refusal::TooManyReports { run: 100001 },
    Refusal::TooManyMarks { run: 9 },
    Refusal::BadCollection {
        file: 18446744073709551615,
        line: 1,
    },
    Refusal::InputTooLarge,
    Refusal::NoSite { run: 5, site: 7 },
    Refusal::BadEdits { line: 3 },
    Refusal::Absent { run: 12 },
    Refusal::NotPart,
    Refusal::BadList {
        file: 2,
        line: 100001,
    },
    Refusal::LargeInput { line: 3 },
];

/// Each trap and its number.
fn push_traps(out: &mut Page) {
    for trap in TRAPS {
        out.debug(trap);
        out.say(" ");
        out.number(trap.number());
        out.say("\n");
    }
}

fn push_refusal(refusal: Refusal, out: &mut Page) {
    let mut line = Vec::new(out.alloc());
    out.done(refusal.push_line(&mut line));
    out.number(refusal.number());
    out.say(" ");
    out.put(line.as_slice());
}

/// The number of each refusal, and its line.
fn push_refusals(out: &mut Page) {
    for refusal in REFUSALS {
        push_refusal(refusal, out);
    }
}

/// A list of these numbers, which are pushed one by one.
fn list_of(numbers: &str, out: &mut Page) -> Seq<u32> {
    let mut list = Seq::new(out.alloc());
    for number in numbers.split(' ') {
        out.done(list.push(number.parse::<u32>().unwrap_or(0)));
    }
    list
}

/// A list to which these numbers were added, as it is once it was taken apart and put together.
fn push_items(numbers: &str, out: &mut Page) {
    let list = Seq::from_vec(list_of(numbers, out).into_vec());
    out.debug(list.is_empty());
    out.say(" ");
    out.debug(list.len());
    out.say(" ");
    out.debug(list.as_slice());
    out.say("\n");
}

/// Answers a line that asks for a table or a list.
pub fn ask_table(line: &str, out: &mut Page) {
    match line {
        "traps" => push_traps(out),
        "refusals" => push_refusals(out),
        _ => {
            if let Some(numbers) = line.strip_prefix("items ") {
                push_items(numbers, out);
            }
        }
    }
}
