//! Laws of the definitions, each on a function of its own without a body.
ghost use Rattle.suspicious_lines.specs.Laws.{EachIsStoodFor, EachIsTheBestOfItsPlace, OneText, OrderIsFree, SuspectsAreThePredicates};

/// The suspects are the predicates of the table that are true in a failing run.
pub fn suspects_are_the_predicates()
    ensures { SuspectsAreThePredicates }
{}

/// Each line that is listed has the best suspect of its place, and stands before all that are worse and apart from them; a suspect that isn't listed is near a
/// listed one that is as good, where there is room.
pub fn lines_are_the_best_of_their_places()
    ensures listed { EachIsTheBestOfItsPlace }
    ensures others { EachIsStoodFor }
{}

/// Runs have one text, in whatever order they stand.
pub fn there_is_one_text()
    ensures one { OneText }
    ensures order { OrderIsFree }
{}
