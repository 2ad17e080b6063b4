ghost use Rattle.std.specs.Prelude.{◌≡◌, ◌≤◌, ◌∷◌, [], length, OnOk};
ghost use Rattle.flow.specs.Limits.{site_limit};
ghost use Rattle.sites.specs.Adding.{IsAdded};
ghost use Rattle.sites.specs.Ground.{body_of};
ghost use Rattle.sites.specs.SitesAt.{site_on, stand_at};

use crate::noted::Noted;
use crate::schemes::SiteError;
use c_types::Checked;
use cbi_base::Seq;
use flow::{SITE_LIMIT, Schemes, Site, SiteKind};

/// What the sites of a function's body are made from: the tree, the wanted schemes, the function's number, and the distinct
/// constants of the body.
#[derive(Clone, Copy)]
pub struct Ground<'a> {
    pub checked: &'a Checked,
    pub schemes: Schemes,
    pub function: u32,
    pub constants: &'a [i64],
    /// What is noted of the variables, where pairs are wanted.
    pub noted: &'a Noted,
}

/// Where a site stands: the number of its function, its line and its token.
#[derive(Clone, Copy)]
pub struct Stand {
    pub function: u32,
    pub line: u32,
    pub token: u32,
}

/// Where a site at the token stands.
pub fn stand_at(ground: &Ground<'_>, token: u32) -> Option<Stand>
    ensures { result ≡ stand_at (body_of ground.now) token }
{
    let function = ground.function;
    match ground.checked.tree().lines.as_slice().get(token as usize) {
        None => None,
        Some(line) => Some(Stand {
            function,
            line: *line,
            token,
        }),
    }
}

/// Adds a site, if there are fewer than 65,536.
pub fn add_site(sites: &mut Seq<Site>, stand: Stand, kind: SiteKind) -> Result<(), SiteError>
    ensures added { IsAdded sites.old (site_on stand kind ∷ []) result sites.new }
    ensures few { OnOk result (length sites.new ≤ site_limit) }
{
    if sites.len() >= SITE_LIMIT {
        return Err(SiteError::TooManySites);
    }
    let Stand {
        function,
        line,
        token,
    } = stand;
    sites.push(Site {
        kind,
        function,
        line,
        token,
    })?;
    Ok(())
}
