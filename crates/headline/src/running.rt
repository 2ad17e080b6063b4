//! Laws of `run` on a file that `transform` wrote, each on a function that does nothing but call on the laws below it.
ghost use Rattle.headline.specs.Running.{AWrittenFileReportsAsTheTextMeans, AWrittenFileRunsAsTheTextMeans};

use compiler::one_accepted_text;
use flow::one_ending;
use program_file::one_program;
use std::alloc::Global;

/// What `run` leaves of a file that `transform` wrote is what the text means: out takes the output of its meaning, each watcher, whatever its type, is
/// told the visits that the program looks at, and the report has the file's identity, the run's number, the meaning's outcome, the label that follows,
/// and the counters of these visits. Its work alone is the machine's.
pub fn a_written_file_runs_as_the_text_means<B>(alloc: Global)
    ensures ran { AWrittenFileRunsAsTheTextMeans B }
    ensures reported { AWrittenFileReportsAsTheTextMeans }
{
    one_program(alloc);
    one_ending();
    one_accepted_text();
}
