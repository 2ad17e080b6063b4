ghost use Rattle.std.specs.Prelude.{◌≡◌, ◌↔◌, IsTrue, IsSome, IfSome};
ghost use Rattle.flow.specs.Sites.{AreRows, IsTable, KindFits, OwnersFit, PartnerFits, SiteFits, is_constant, slot_fits};

use cbi_base::{Name, Seq};
use std::marker::Model;

/// Where a variable's cells lie: a local of the site's function, or a global.
#[derive(Clone, Copy, Debug, PartialEq, Eq)]
pub enum Slot {
    Local { index: u32 },
    Global { index: u32 },
}

/// What a variable's new value is compared with.
#[derive(Debug, Drop)]
pub enum Partner {
    Variable { name: Name, slot: Slot },
    Constant { value: i64 },
}

/// The word of a branch site's predicates.
#[derive(Clone, Copy, Debug, PartialEq, Eq)]
pub enum BranchWord {
    If,
    While,
    Do,
    For,
    Question,
    AndAnd,
    OrOr,
}

/// What a site looks at: the truth of a condition, the sign of a returned value, or a variable's new value beside its partner.
#[derive(Debug, Drop)]
pub enum SiteKind {
    Branch {
        word: BranchWord,
    },
    Return {
        callee: Name,
    },
    Pair {
        target: Name,
        slot: Slot,
        partner: Partner,
    },
}

/// A site: what it looks at, the number of its function, and the line and the number of the token that it stands at.
#[derive(Debug, Drop)]
pub struct Site {
    pub kind: SiteKind,
    pub function: u32,
    pub line: u32,
    pub token: u32,
}

/// The most sites of a program.
pub const SITE_LIMIT: usize = 65536;

/// The greatest line and the greatest token at which a site stands.
const LINE_LIMIT: u32 = 1_048_577;

const TOKEN_LIMIT: u32 = 99_999;

/// The parts of a site table: the sites, and the names of the functions.
#[derive(Debug, Drop)]
pub struct TableParts {
    pub sites: Seq<Site>,
    pub functions: Seq<Name>,
}

/// The sites of a program and the names of its functions. There are at most 65,536 sites, and the function of each is a place among the
/// functions. Contracts see it as its parts.
#[derive(Debug, Drop)]
pub struct SiteTable {
    parts: TableParts,
}

impl Model for SiteTable {
    ghost use Rattle.flow.specs.declared.site.TableParts.{TableParts};
    ghost use Rattle.flow.specs.Sites.{IsTable};

    ghost Value = { TableParts };

    ghost view = { λ t. t.parts };

    ghost invariant = { λ t. IsTable t.parts };
}

/// Whether a variable is there, where the site's function and the program have so many locals and globals.
pub fn slot_fits(locals: u32, globals: u32, slot: Slot) -> bool
    ensures { result ≡ slot_fits locals globals slot }
{
    match slot {
        Slot::Local { index } => index < locals,
        Slot::Global { index } => index < globals,
    }
}

/// Whether a constant of the source text can have this value.
pub fn is_constant(value: i64) -> bool
    ensures { result ≡ is_constant value }
{
    (-128..=4294967295).contains(&value)
}

/// Whether a site's partner is there.
pub fn partner_fits(locals: u32, globals: u32, partner: &Partner) -> bool
    ensures { IsTrue result ↔ PartnerFits locals globals partner.now }
{
    match partner {
        Partner::Variable { name, slot } => {
            let _name = name.bytes();
            slot_fits(locals, globals, *slot)
        }
        Partner::Constant { value } => is_constant(*value),
    }
}

/// Whether what a site looks at is there.
pub fn kind_fits(locals: u32, globals: u32, kind: &SiteKind) -> bool
    ensures { IsTrue result ↔ KindFits locals globals kind.now }
{
    match kind {
        SiteKind::Branch { .. } => true,
        SiteKind::Return { callee } => {
            let _name = callee.bytes();
            true
        }
        SiteKind::Pair {
            target,
            slot,
            partner,
        } => {
            let _name = target.bytes();
            slot_fits(locals, globals, *slot) && partner_fits(locals, globals, partner)
        }
    }
}

/// Whether a site may stand in a function with so many locals, beside so many globals.
pub fn site_fits(locals: u32, globals: u32, site: &Site) -> bool
    ensures { IsTrue result ↔ SiteFits locals globals site.now }
{
    let on_line = 1 <= site.line && site.line <= LINE_LIMIT;
    on_line && site.token <= TOKEN_LIMIT && kind_fits(locals, globals, &site.kind)
}

/// Whether there are few sites, and the function of each is one of so many.
fn is_table(sites: &[Site], functions: usize) -> bool
    ensures { IsTrue result ↔ OwnersFit functions sites.now }
{
    sites.len() <= SITE_LIMIT
        && sites
            .iter()
            .all(|site| (site.function as usize) < functions)
}

impl SiteTable {
    /// The table of sites and functions that make one.
    pub(crate) fn of(sites: Seq<Site>, functions: Seq<Name>) -> SiteTable
        requires { AreRows sites functions }
        ensures sites { result.sites ≡ sites }
        ensures functions { result.functions ≡ functions }
    {
        SiteTable {
            parts: TableParts { sites, functions },
        }
    }

    /// The table of these sites and functions; None exactly where it is none.
    pub fn new(sites: Seq<Site>, functions: Seq<Name>) -> Option<SiteTable>
        ensures found { IsSome result ↔ AreRows sites functions }
        ensures value { IfSome result (λ t. (t.sites ≡ sites) × (t.functions ≡ functions)) }
    {
        if !is_table(sites.as_slice(), functions.len()) {
            return None;
        }
        Some(SiteTable::of(sites, functions))
    }

    /// Its sites, which keep the conditions on a table.
    pub fn sites(&self) -> &[Site]
        ensures value { result.now ≡ self.now.sites }
        ensures is_table { IsTable self.now }
    {
        self.parts.sites.as_slice()
    }

    /// The names of the functions.
    pub fn functions(&self) -> &[Name]
        ensures { result.now ≡ self.now.functions }
    {
        self.parts.functions.as_slice()
    }

    /// Its sites, without the names of the functions.
    pub fn into_sites(self) -> Seq<Site>
        ensures value { result ≡ self.sites }
        ensures is_table { IsTable self }
    {
        let SiteTable { parts } = self;
        let TableParts {
            sites,
            functions: _,
        } = parts;
        sites
    }
}
