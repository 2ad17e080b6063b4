ghost use Rattle.std.specs.Prelude.{◌≡◌, ◌≤◌, ◌∷◌, ◌++◌, ℕ, List, length, drop, IfOk, IfSome, MatchOption, Some};
ghost use Rattle.cbi_base.specs.Text.{Lacks, is_newline};
ghost use Rattle.collector.specs.RunText.{IsRunAt, RunStands, SiteStands, SitesStand, sites_text};
ghost use Rattle.collector.specs.declared.run_text.RunText.{RunText};
ghost use Rattle.report_file.specs.Report.{AreEntries, RiseFrom};
ghost use Rattle.report_file.specs.declared.report.Entry.{Entry};
ghost use Rattle.report_file.specs.declared.run_line.RunLine.{RunLine};

use crate::collection::is_identity;
use cbi_base::{Memory, ProgramId, Seq};
use report_file::{Entry, Report, RunLine, Version, entry_in, run_line_in};
use std::alloc::Global;

/// The lines of one run within a text.
#[derive(Debug, Drop)]
pub struct RunText {
    /// What they say.
    pub report: Report,
    /// The place behind the last of them.
    pub end: usize,
}

// The first line, without its newline, and the bytes behind it; None exactly where no line ends.
fn first_line(bytes: &[u8]) -> Option<(&[u8], &[u8])>
    ensures { MatchOption result (Lacks is_newline bytes.now) (λ parts. (bytes.now ≡ parts.0.now ++ 10 ∷ parts.1.now) × Lacks is_newline parts.0.now) }
{
    let at = bytes.iter().position(|b| *b == b'\n')?;
    Some((&bytes[..at], &bytes[at + 1..]))
}

// The run's line that the bytes begin with, and the bytes behind it; None exactly where they begin with none.
fn run_line(bytes: &[u8]) -> Option<(RunLine, &[u8])>
    ensures { MatchOption result ((x : RunLine) (rest : List ℕ) → ¬ (RunStands bytes.now x rest)) (λ found. RunStands bytes.now found.0 found.1.now) }
{
    let (line, rest) = first_line(bytes)?;
    let value = run_line_in(Version::Second, line)?;
    Some((value, rest))
}

// The site's line that the bytes begin with, and the bytes behind it; None exactly where they begin with none of this site or a greater one.
fn site_line(bytes: &[u8], site: u32) -> Option<(Entry, &[u8])>
    ensures { MatchOption result ((e : Entry) (rest : List ℕ) → ¬ (SiteStands bytes.now site e rest)) (λ found. SiteStands bytes.now site found.0 found.1.now) }
{
    let (line, rest) = first_line(bytes)?;
    let entry = entry_in(line)?;
    if entry.site < site {
        return None;
    }
    Some((entry, rest))
}

// The longest list of sites' lines that the bytes begin with, and the bytes behind them.
fn site_lines(alloc: Global, bytes: &[u8]) -> Result<(Seq<Entry>, &[u8]), Memory>
    ensures are { IfOk result (λ found. AreEntries found.0 × RiseFrom 0 found.0) }
    ensures text { IfOk result (λ found. bytes.now ≡ sites_text found.0 ++ found.1.now) }
    ensures longest { IfOk result (λ found. (entries : List Entry) → SitesStand bytes.now entries → length entries ≤ length found.0) }
{
    let mut entries = Seq::new(alloc);
    let mut rest = bytes;
    let mut site = 0u32;
    while let Some((entry, after)) = site_line(rest, site) {
        entries.push(entry)?;
        site = entry.site + 1;
        rest = after;
    }
    Ok((entries, rest))
}

// What a run's line and those of its sites say of a run of the program.
fn report_with(program: ProgramId, line: RunLine, entries: Seq<Entry>) -> Report
    ensures { result ≡ record { program = program; run = line.run; outcome = line.outcome; label = line.label; work = line.work; entries = entries } }
{
    Report {
        program,
        run: line.run,
        outcome: line.outcome,
        label: line.label,
        work: line.work,
        entries,
    }
}

/// The lines of a run at a place of a text, as those of this program's report: the run's line, in the second version, and the longest list of its
/// sites' lines, whose numbers rise.
pub fn read_run(
    alloc: Global,
    program: &ProgramId,
    bytes: &[u8],
    from: usize,
) -> Result<Option<RunText>, Memory>
    requires { from ≤ length bytes.now }
    // None exactly where no run's line begins at the place.
    ensures found { IfOk result (λ run.
        MatchOption run ((x : RunLine) (rest : List ℕ) → ¬ (RunStands (drop from bytes.now) x rest)) (IsRunAt program.now bytes.now from)) }
    // What stands there so is what is read.
    ensures only { (text : RunText) → IsRunAt program.now bytes.now from text → IfOk result (λ run. run ≡ Some text) }
    ensures within { IfOk result (λ run. IfSome run (λ text. text.end ≤ length bytes.now)) }
{
    let Some((line, rest)) = run_line(&bytes[from..]) else {
        return Ok(None);
    };
    let (entries, rest) = site_lines(alloc, rest)?;
    is_identity(*program);
    let report = report_with(*program, line, entries);
    Ok(Some(RunText {
        report,
        end: bytes.len() - rest.len(),
    }))
}
