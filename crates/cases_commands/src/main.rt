//! Calls of the whole tool over a store in memory, as the rows of the files ask for them that the words name.
#![tactic(auto)]

mod calls;
mod cloned;
mod few;
mod no_memory;
mod row;
mod watchers;

use cases_rows::look;
use row::Asked;
use std::process::ExitCode;

fn main(rt: HostRuntime) -> ExitCode {
    look(&rt, &Asked)
}
