//! Laws of the definitions, each on a function of its own without a body.
ghost use Rattle.program_parts.specs.Laws.{CountsOfParts, EachSiteOnce, EachVisitOnce, HasItsSites};

/// The sites of a part are those of the whole table with their numbers.
pub fn parts_have_their_sites()
    ensures { HasItsSites }
{}

/// The parts share no site, and have each site of the whole table once.
pub fn each_site_once()
    ensures { EachSiteOnce }
{}

/// A visit is seen by exactly one part.
pub fn each_visit_once()
    ensures { EachVisitOnce }
{}

/// The counters of a part's visits are those of all visits, site by site.
pub fn counts_of_parts()
    ensures { CountsOfParts }
{}
