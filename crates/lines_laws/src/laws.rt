//! Laws of the definitions, each on a function of its own without a body.
ghost use Rattle.lines_laws.specs.Laws.{BanksAreLines, CollectionsAreLines, EditsAreLines, ListsAreLines, ReportsAreLines};

/// A text is one of a report exactly where it goes wrong at no line, and the report is what its lines say: so each text is the one or goes wrong.
pub fn reports_are_lines()
    ensures { ReportsAreLines }
{}

/// A text is one of a collection exactly where it goes wrong at no line, and the collection is what its lines say.
pub fn collections_are_lines()
    ensures { CollectionsAreLines }
{}

/// A text is one of a list of edits of a program's runs exactly where it goes wrong at no line, and the edits are what its lines say.
pub fn edits_are_lines()
    ensures { EditsAreLines }
{}

/// A text is one of a bank's numbers exactly where it goes wrong at no line, and the numbers are what its lines say.
pub fn banks_are_lines()
    ensures { BanksAreLines }
{}

/// A text is one of a list of names exactly where it goes wrong at no line, whatever the number of the first one's run, and the names are its lines.
pub fn lists_are_lines()
    ensures { ListsAreLines }
{}
