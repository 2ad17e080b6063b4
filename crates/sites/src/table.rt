ghost use Rattle.std.specs.Prelude.{◌≡◌, ◌<◌, ◌≤◌, ◌++◌, length, IfOk, IfErr, IfSome, IsErr, OnOk};
ghost use Rattle.c_syntax.specs.Words.{most_tokens, plain_item};
ghost use Rattle.c_types.specs.Answers.{known_of, tree_of, type_at};
ghost use Rattle.flow.specs.Limits.{site_limit};
ghost use Rattle.sites.specs.declared.schemes.SiteError.TheVariants as error;
ghost use Rattle.sites.specs.Adding.{IsAdded};
ghost use Rattle.sites.specs.Ground.{body_of};
ghost use Rattle.sites.specs.Noted.{IsEnoughFor, IsNotedFor};
ghost use Rattle.sites.specs.SitesAt.{branch_sites, change_sites, gives_scalar, is_observed, return_sites, sites_at, sites_in, spot_token};
ghost use Rattle.sites.specs.Standing.{EachToken, StandAtTokens, StandFrom, begins_at, item_spots};
ghost use Rattle.defined_functions.specs.Functions.{defined_by, functions_of};
ghost use Rattle.sites.specs.Table.{body_sites, item_sites, sites_of};

use crate::constants::constants_of;
use crate::ground::{Ground, Stand, add_site, stand_at};
use crate::noted::{Noted, note_body, noted_for};
use crate::partners::add_pairs;
use crate::schemes::SiteError;
use crate::spots::{Spot, token_of};
use crate::statements::push_entries;
use c_syntax::Item;
use c_types::Checked;
use c_types_rules::is_scalar;
use cbi_base::{Name, Seq};
use flow::{BranchWord, Schemes, Site, SiteKind, SiteTable, TableParts};
use std::alloc::Global;

/// Whether the expression at the token has a scalar type.
fn gives_scalar(checked: &Checked, token: u32) -> bool
    ensures { result ≡ gives_scalar (type_at (known_of checked.now) token) }
{
    match checked.type_at(token as usize) {
        None => false,
        Some(ctype) => is_scalar(ctype),
    }
}

/// Whether the call at the token gives a scalar, and is one of a defined function, of `getchar` or of `malloc`.
fn is_observed(checked: &Checked, token: u32, name: &Name) -> bool
    ensures { result ≡ is_observed (known_of checked.now) token name.now }
{
    if !gives_scalar(checked, token) {
        return false;
    }
    if checked.function_at(token as usize).is_some() {
        return true;
    }
    name.bytes() == b"getchar".as_slice() || name.bytes() == b"malloc".as_slice()
}

/// Adds the site of a branch.
fn add_branch(
    sites: &mut Seq<Site>,
    ground: &Ground<'_>,
    stand: Stand,
    word: BranchWord,
) -> Result<(), SiteError>
    ensures { IsAdded sites.old (branch_sites (body_of ground.now) stand word) result sites.new }
{
    if !ground.schemes.branches {
        return Ok(());
    }
    add_site(sites, stand, SiteKind::Branch { word })
}

/// Adds the site of a call.
fn add_return(
    sites: &mut Seq<Site>,
    ground: &Ground<'_>,
    stand: Stand,
    name: &Name,
) -> Result<(), SiteError>
    ensures { IsAdded sites.old (return_sites (body_of ground.now) stand name.now) result sites.new }
{
    if !ground.schemes.returns || !is_observed(ground.checked, stand.token, name) {
        return Ok(());
    }
    let callee = name.try_clone()?;
    add_site(sites, stand, SiteKind::Return { callee })
}

/// Adds the sites of a new value.
fn add_change(
    sites: &mut Seq<Site>,
    ground: &Ground<'_>,
    stand: Stand,
    target: u32,
) -> Result<(), SiteError>
    requires { IsEnoughFor ground.now.schemes (known_of ground.now.checked.now) ground.now.noted.now stand.token }
    ensures { IsAdded sites.old (change_sites (body_of ground.now) stand target) result sites.new }
{
    if !ground.schemes.pairs {
        return Ok(());
    }
    add_pairs(sites, ground, stand, target)
}

/// Adds the sites that stand at a construct.
fn add_sites_at(sites: &mut Seq<Site>, ground: &Ground<'_>, spot: &Spot) -> Result<(), SiteError>
    requires { IfSome (spot_token spot.now) (IsEnoughFor ground.now.schemes (known_of ground.now.checked.now) ground.now.noted.now) }
    ensures { IsAdded sites.old (sites_at (body_of ground.now) spot.now) result sites.new }
{
    let Some(token) = token_of(spot) else {
        return Ok(());
    };
    let Some(stand) = stand_at(ground, token) else {
        return Ok(());
    };
    match spot {
        Spot::Branch { word, .. } => add_branch(sites, ground, stand, *word),
        Spot::Call { name, .. } => add_return(sites, ground, stand, name),
        Spot::Change { target, .. } => add_change(sites, ground, stand, *target),
        Spot::Constant { .. } => Ok(()),
    }
}

/// Adds the sites of a body's constructs.
fn add_sites_in(sites: &mut Seq<Site>, ground: &Ground<'_>, spots: &[Spot]) -> Result<(), SiteError>
    requires { EachToken (IsEnoughFor ground.now.schemes (known_of ground.now.checked.now) ground.now.noted.now) spots.now }
    ensures { IsAdded sites.old (sites_in (body_of ground.now) spots.now) result sites.new }
{
    for spot in spots {
        add_sites_at(sites, ground, spot)?;
    }
    Ok(())
}

/// Adds the sites of the constructs that a function's body holds.
fn add_body(
    alloc: Global,
    sites: &mut Seq<Site>,
    checked: &Checked,
    noted: &Noted,
    schemes: Schemes,
    function: u32,
    spots: &[Spot],
) -> Result<(), SiteError>
    requires { EachToken (IsEnoughFor schemes (known_of checked.now) noted.now) spots.now }
    ensures { IsAdded sites.old (body_sites (known_of checked.now) (tree_of checked.now).lines schemes function spots.now) result sites.new }
{
    let constants = constants_of(alloc, spots)?;
    let ground = Ground {
        checked,
        schemes,
        function,
        constants: constants.as_slice(),
        noted,
    };
    add_sites_in(sites, &ground, spots)
}

/// Adds what an item has: a function that it defines, and the sites of that.
fn add_item(
    alloc: Global,
    parts: &mut TableParts,
    checked: &Checked,
    noted: &mut Noted,
    schemes: Schemes,
    item: &Item,
) -> Result<(), SiteError>
    requires few { length parts.old.functions ≤ most_tokens }
    requires tokens { StandAtTokens (item_spots (plain_item item.now)) }
    requires behind { StandFrom (begins_at (plain_item item.now)) (item_spots (plain_item item.now)) }
    requires noted { IsNotedFor schemes (known_of checked.now) (begins_at (plain_item item.now)) noted.old }
    ensures sites { IsAdded parts.old.sites
        (item_sites (known_of checked.now) (tree_of checked.now).lines schemes (length parts.old.functions) (plain_item item.now))
        result parts.new.sites }
    ensures functions { OnOk result (parts.new.functions ≡ parts.old.functions ++ defined_by (plain_item item.now)) }
    ensures noted { OnOk result (IsNotedFor schemes (known_of checked.now) (begins_at (plain_item item.now)) noted.new) }
{
    match item {
        Item::Function {
            token,
            name,
            body: Some(body),
            ..
        } => {
            let function = parts.functions.len() as u32;
            parts.functions.push(name.try_clone()?)?;
            let mut spots = Seq::new(alloc);
            push_entries(&mut spots, body.as_slice())?;
            let spots = spots.as_slice();
            note_body(noted, checked, schemes, *token, spots)?;
            add_body(
                alloc,
                &mut parts.sites,
                checked,
                noted,
                schemes,
                function,
                spots,
            )
        }
        _ => Ok(()),
    }
}

/// The site table of a tree, for some schemes: in the order of the tokens, and at most 65,536 sites, or it is refused.
pub fn site_table(
    alloc: Global,
    checked: &Checked,
    schemes: Schemes,
) -> Result<SiteTable, SiteError>
    ensures table { IfOk result (λ t. t.sites ≡ sites_of (tree_of checked.now) (known_of checked.now) schemes) }
    ensures functions { IfOk result (λ t. t.functions ≡ functions_of (tree_of checked.now)) }
    ensures too_many { IfErr result (λ e. e ≡ error.TooManySites → site_limit < length (sites_of (tree_of checked.now) (known_of checked.now) schemes)) }
    ensures refused { site_limit < length (sites_of (tree_of checked.now) (known_of checked.now) schemes) → IsErr result }
{
    checked.facts();
    let mut parts = TableParts {
        sites: Seq::new(alloc),
        functions: Seq::new(alloc),
    };
    let mut noted = noted_for(alloc, checked, schemes)?;
    for item in checked.tree().items.as_slice() {
        add_item(alloc, &mut parts, checked, &mut noted, schemes, item)?;
    }
    match SiteTable::new(parts.sites, parts.functions) {
        Some(table) => Ok(table),
        None => Err(SiteError::TooManySites),
    }
}
