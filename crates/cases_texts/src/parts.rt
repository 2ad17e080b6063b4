//! What the programs with a part of a text's sites observe, beside the one with all of them.
ghost use Rattle.std.specs.Prelude.{◌≤◌};
ghost use Rattle.flow.specs.Sites.{MayPart};
ghost use Rattle.compiler.specs.Planned.{part_in};

use crate::plans::{full, parted};
use crate::runs::{Given, program_of, result_of};
use cases_rows::Page;
use cbi_base::Counts;
use compiler::Plan;
use flow::RunResult;
use program_file::write_program;

/// In how many parts the sites are cut.
const COUNTS: [u32; 4] = [1, 2, 3, 7];

/// The file of the program of a text by a plan.
fn file_of(text: &[u8], plan: Plan, out: &mut Page) -> Option<Vec<u8>>
    requires { MayPart (part_in plan) }
{
    match program_of(text, plan, out) {
        Some(program) => out.done(write_program(out.alloc(), &program)),
        None => None,
    }
}

/// Whether the counters of a part are those that its sites have among all.
fn are_of_part(index: usize, count: usize, part: &[Counts], whole: &[Counts]) -> bool
    requires { 1 ≤ count }
{
    let mut left = part;
    for (site, counts) in whole.iter().enumerate() {
        if site % count != index {
            continue;
        }
        let [first, more @ ..] = left else {
            return false;
        };
        if *first != *counts {
            return false;
        }
        left = more;
    }
    left.is_empty()
}

/// Adds how the run of a program with a part of the sites isn't as the full one was.
fn push_other_part(index: u32, count: u32, seen: &RunResult, full: &RunResult, out: &mut Page) {
    let alike = seen.outcome == full.outcome && seen.output.as_slice() == full.output.as_slice();
    if count > 0
        && alike
        && are_of_part(
            index as usize,
            count as usize,
            seen.counts.as_slice(),
            full.counts.as_slice(),
        )
    {
        return;
    }
    out.say("; otherwise in part ");
    out.number(index);
    out.say(" of ");
    out.number(count);
}

/// Compares the runs of the full program and of the sampled one, with each visit drawn, of one part.
fn push_part(
    given: Given<'_>,
    schemes: &str,
    index: u32,
    count: u32,
    whole: &RunResult,
    out: &mut Page,
) {
    let (full, sampled) = parted(schemes, index, count);
    if let Some(seen) = result_of(given, full, "1", out) {
        push_other_part(index, count, &seen, whole, out);
    }
    if let Some(seen) = result_of(given, sampled, "1", out) {
        push_other_part(index, count, &seen, whole, out);
    }
}

/// Compares the file of the program whose part is all of the sites with that of the full one.
fn push_one_part(given: Given<'_>, schemes: &str, out: &mut Page) {
    let (one, _) = parted(schemes, 0, 1);
    let Some(file) = file_of(given.text, one, out) else {
        return;
    };
    let Some(whole) = file_of(given.text, full(schemes), out) else {
        return;
    };
    if file.as_slice() != whole.as_slice() {
        out.say("; another file in part 0 of 1");
    }
}

/// Compares the runs of the programs of all parts with that of the full program, which has all sites.
pub(crate) fn push_parts(given: Given<'_>, schemes: &str, whole: &RunResult, out: &mut Page) {
    for count in COUNTS {
        for index in 0..count {
            push_part(given, schemes, index, count, whole, out);
        }
    }
    push_one_part(given, schemes, out);
}
