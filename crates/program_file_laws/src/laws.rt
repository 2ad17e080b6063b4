//! Laws of the definitions, each on a function of its own without a body.
ghost use Rattle.program_file_laws.specs.Laws.{LinesAreSpelled, SpelledLinesCome};

/// What comes as a line of a program file is the spelling of the item that it adds: of a text, a global, a function, a site, sizes, a node, or a count.
pub fn program_lines_are_spelled()
    ensures { LinesAreSpelled }
{}

/// The lines that spell the parts of a program come one after another, and lead to it.
pub fn spelled_lines_come()
    ensures { SpelledLinesCome }
{}
