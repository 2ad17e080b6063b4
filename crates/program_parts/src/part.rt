ghost use Rattle.std.specs.Prelude.{◌≡◌, true};
ghost use Rattle.flow.specs.Sites.{PartFits};
ghost use Rattle.program_parts.specs.Part.{is_site_in_part, number_in};

use flow::Part;

/// Whether the part has the site with this number.
pub(crate) fn has(part: Part, site: u32) -> bool
    requires { PartFits part }
    ensures { result ≡ is_site_in_part part site }
{
    site % part.count == part.index
}

/// The number in the part of one of its sites.
pub(crate) fn number_in(part: Part, site: u32) -> u32
    requires part { PartFits part }
    requires has { is_site_in_part part site ≡ true }
    ensures { result ≡ number_in part site }
{
    (site - part.index) / part.count
}
