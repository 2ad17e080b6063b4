//! Looks at the rows of the files that the words name, each of which lies in the folder of its kind.
#![tactic(auto)]

use cases_base::BaseRows;
use cases_files::FileRows;
use cases_machine::MachineRows;
use cases_pairs::PairRows;
use cases_rows::{Files, Tally, look_at_file, look_by_file, print_unread};
use cases_texts::TextRows;
use std::io;
use std::process::ExitCode;

/// The kinds of rows, by the folders in which their files lie.
struct Kinds;

impl Files for Kinds {
    fn look_at(&self, rt: &HostRuntime, name: &str, tally: &mut Tally) -> io::Result<()> {
        let (kind, _) = name.split_once('/').unwrap_or(("", name));
        match kind {
            "base" => look_at_file(rt, &BaseRows, name, tally),
            "pairs" => look_at_file(rt, &PairRows, name, tally),
            "machine" => look_at_file(rt, &MachineRows, name, tally),
            "files" => look_at_file(rt, &FileRows, name, tally),
            "texts" => look_at_file(rt, &TextRows, name, tally),
            _ => print_unread(rt, name, "no kind of rows", tally),
        }
    }
}

fn main(rt: HostRuntime) -> ExitCode {
    look_by_file(&rt, &Kinds)
}
