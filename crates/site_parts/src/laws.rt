//! Laws of the definitions, each on a function of its own without a body.
ghost use Rattle.site_parts.specs.Laws.{EntriesOfParts, FarmsCountTheWhole, FitsWhenWidened, MayWidenWhatFits};

/// A report that fits the table of a part fits the whole table, once widened.
pub fn widened_reports_fit()
    ensures { FitsWhenWidened }
{}

/// A report that fits the table of a part may be widened.
pub fn fitting_reports_may_widen()
    ensures { MayWidenWhatFits }
{}

/// The entries of the runs of all parts, widened and put side by side, are those of the whole program's run.
pub fn entries_of_parts()
    ensures { EntriesOfParts }
{}

/// So a farm, where each machine runs the program of one part on the same input, counts what the whole program's run does.
pub fn farms_count_the_whole()
    ensures { FarmsCountTheWhole }
{}
