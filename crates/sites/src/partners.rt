ghost use Rattle.std.specs.Prelude.{◌≡◌, suc, ◌∷◌, [], Some, map, drop, option_copied, slice_get};
ghost use Rattle.c_types_rules.specs.Plain.{plain_type};
ghost use Rattle.c_types.specs.Answers.{declared_at, known_of};
ghost use Rattle.flow.specs.declared.site.Partner.TheVariants as partner;
ghost use Rattle.sites.specs.Adding.{IsAdded};
ghost use Rattle.sites.specs.Ground.{body_of};
ghost use Rattle.sites.specs.Near.{TellsBehind, clear_by, hidden_among, is_variable_named, partner_at};
ghost use Rattle.sites.specs.Noted.{IsEnough};
ghost use Rattle.sites.specs.SitesAt.{pair_on, named_pairs, pairs_of, pairs_on, partners_of};
ghost use Rattle.sites.specs.Visible.{all_again, is_partner, is_type, slot_of, variable_partners};

use crate::ground::{Ground, Stand, add_site};
use crate::noted::is_clear;
use crate::schemes::SiteError;
use c_types::Checked;
use c_types_expressions::{Variable, VariableEntry};
use c_types_rules::{CType, is_arithmetic, same_type};
use cbi_base::{Name, Seq};
use flow::{Partner, Site, SiteKind, Slot};

/// Where a variable's cells lie.
fn slot_of(variable: Variable) -> Slot
    ensures { result ≡ slot_of variable }
{
    match variable {
        Variable::Global { index } => Slot::Global { index },
        Variable::Local { index } => Slot::Local { index },
    }
}

/// The variable at the place.
fn variable_at(checked: &Checked, place: usize) -> Option<&VariableEntry>
    ensures { option_copied result ≡ slice_get (known_of checked.now).variables place }
{
    checked.variables().get(place)
}

/// Whether the variable at the place has the name.
fn is_named(checked: &Checked, place: usize, name: &Name) -> bool
    ensures { result ≡ is_variable_named name.now (slice_get (known_of checked.now).variables place) }
{
    match variable_at(checked, place) {
        None => false,
        Some(variable) => variable.name.bytes() == name.bytes(),
    }
}

/// Whether the variable at one of these places hides the name at the token.
fn is_hidden(checked: &Checked, token: u32, name: &Name, places: &[usize]) -> bool
    ensures { result ≡ hidden_among (known_of checked.now) token name.now places.now }
{
    let mut left = places;
    while let [place, later @ ..] = left {
        if is_named(checked, *place, name) && checked.scope_holds(*place, token) {
            return true;
        }
        left = later;
    }
    false
}

/// Whether what is noted of the variable at the place tells that no later one takes its name before the token.
fn is_clear_by(again: &[Option<u32>], place: usize, token: u32) -> bool
    ensures { result ≡ clear_by token (slice_get again.now place) }
{
    match again.get(place) {
        None => false,
        Some(found) => is_clear(token, *found),
    }
}

/// Whether the variable whose name stands at the token has this type.
fn has_type(checked: &Checked, token: u32, ctype: &CType) -> bool
    ensures { result ≡ is_type (plain_type ctype.now) (declared_at (known_of checked.now) token) }
{
    match checked.declared_type(token as usize) {
        None => false,
        Some(other) => same_type(other, ctype),
    }
}

/// A variable that gets a new value: what is known of it, its place and its type.
#[derive(Clone, Copy)]
struct Target<'a> {
    entry: &'a VariableEntry,
    place: u32,
    ctype: &'a CType,
}

/// Whether the variable at the place is a partner at the token, where the later places tell what is hidden.
#[tactic(auto, using(crate::proofs::Looking::clear_is))]
fn is_partner(
    ground: &Ground<'_>,
    token: u32,
    target: &Target<'_>,
    place: usize,
    variable: &VariableEntry,
    later: &[usize],
) -> bool
    requires there { slice_get (known_of ground.now.checked.now).variables place ≡ Some variable.now }
    requires again { ground.now.noted.now.again ≡ all_again (known_of ground.now.checked.now).variables }
    requires behind { TellsBehind (known_of ground.now.checked.now) token place later.now }
    ensures { result ≡ is_partner (known_of ground.now.checked.now) token target.now.place (plain_type target.now.ctype.now) place variable.now
        (drop (suc place) (known_of ground.now.checked.now).variables) }
{
    if place == target.place as usize {
        return false;
    }
    if !has_type(ground.checked, variable.from, target.ctype) {
        return false;
    }
    if !ground.checked.scope_holds(place, token) {
        return false;
    }
    if is_clear_by(ground.noted.again.as_slice(), place, token) {
        return true;
    }
    !is_hidden(ground.checked, token, &variable.name, later)
}

/// Adds the site that compares the target with a partner.
fn add_pair(
    sites: &mut Seq<Site>,
    stand: Stand,
    target: &VariableEntry,
    partner: Partner,
) -> Result<(), SiteError>
    ensures { IsAdded sites.old (pair_on stand target.now.name (slot_of target.now.variable) partner ∷ []) result sites.new }
{
    let name = target.name.try_clone()?;
    let slot = slot_of(target.variable);
    add_site(
        sites,
        stand,
        SiteKind::Pair {
            target: name,
            slot,
            partner,
        },
    )
}

/// Adds the site that compares the target with a variable.
fn add_variable_pair(
    sites: &mut Seq<Site>,
    stand: Stand,
    target: &VariableEntry,
    other: &VariableEntry,
) -> Result<(), SiteError>
    ensures { IsAdded sites.old
        (pair_on stand target.now.name (slot_of target.now.variable) (partner.Variable other.now.name (slot_of other.now.variable)) ∷ []) result sites.new }
{
    let name = other.name.try_clone()?;
    let slot = slot_of(other.variable);
    add_pair(sites, stand, target, Partner::Variable { name, slot })
}

/// Adds the site that compares the target with this variable, which stands at the place, if that is a partner.
fn add_if_partner(
    sites: &mut Seq<Site>,
    ground: &Ground<'_>,
    stand: Stand,
    target: &Target<'_>,
    place: usize,
    variable: &VariableEntry,
    later: &[usize],
) -> Result<(), SiteError>
    requires there { slice_get (known_of ground.now.checked.now).variables place ≡ Some variable.now }
    requires again { ground.now.noted.now.again ≡ all_again (known_of ground.now.checked.now).variables }
    requires behind { TellsBehind (known_of ground.now.checked.now) stand.token place later.now }
    ensures { IsAdded sites.old
        (map (pair_on stand target.now.entry.now.name (slot_of target.now.entry.now.variable))
        (partner_at (known_of ground.now.checked.now) stand.token target.now.place (plain_type target.now.ctype.now) place (Some variable.now)))
        result sites.new }
{
    if !is_partner(ground, stand.token, target, place, variable, later) {
        return Ok(());
    }
    add_variable_pair(sites, stand, target.entry, variable)
}

/// Adds the site that compares the target with the variable at the place, if that is a partner.
fn add_partner(
    sites: &mut Seq<Site>,
    ground: &Ground<'_>,
    stand: Stand,
    target: &Target<'_>,
    place: usize,
    later: &[usize],
) -> Result<(), SiteError>
    requires again { ground.now.noted.now.again ≡ all_again (known_of ground.now.checked.now).variables }
    requires behind { TellsBehind (known_of ground.now.checked.now) stand.token place later.now }
    ensures { IsAdded sites.old
        (map (pair_on stand target.now.entry.now.name (slot_of target.now.entry.now.variable))
        (partner_at (known_of ground.now.checked.now) stand.token target.now.place (plain_type target.now.ctype.now) place
        (slice_get (known_of ground.now.checked.now).variables place)))
        result sites.new }
{
    match variable_at(ground.checked, place) {
        None => Ok(()),
        Some(variable) => add_if_partner(sites, ground, stand, target, place, variable, later),
    }
}

/// Adds the sites that compare the target with variables.
fn add_variable_pairs(
    sites: &mut Seq<Site>,
    ground: &Ground<'_>,
    stand: Stand,
    target: &Target<'_>,
) -> Result<(), SiteError>
    requires { IsEnough (known_of ground.now.checked.now) ground.now.noted.now stand.token }
    ensures { IsAdded sites.old
        (map (pair_on stand target.now.entry.now.name (slot_of target.now.entry.now.variable))
        (variable_partners (known_of ground.now.checked.now) stand.token target.now.place (plain_type target.now.ctype.now) 0
        (known_of ground.now.checked.now).variables))
        result sites.new }
{
    let mut left = ground.noted.near.as_slice();
    while let [place, later @ ..] = left {
        add_partner(sites, ground, stand, target, *place, later)?;
        left = later;
    }
    Ok(())
}

/// Adds the site that compares the target with a constant.
fn add_constant_pair(
    sites: &mut Seq<Site>,
    stand: Stand,
    target: &VariableEntry,
    value: i64,
) -> Result<(), SiteError>
    ensures { IsAdded sites.old (pair_on stand target.now.name (slot_of target.now.variable) (partner.Constant value) ∷ []) result sites.new }
{
    add_pair(sites, stand, target, Partner::Constant { value })
}

/// Adds the sites that compare the target with constants.
fn add_constant_pairs(
    sites: &mut Seq<Site>,
    stand: Stand,
    target: &VariableEntry,
    constants: &[i64],
) -> Result<(), SiteError>
    ensures { IsAdded sites.old (map (pair_on stand target.now.name (slot_of target.now.variable)) (map partner.Constant constants.now)) result sites.new }
{
    for value in constants {
        add_constant_pair(sites, stand, target, *value)?;
    }
    Ok(())
}

/// Adds the sites that compare the target with its partners.
#[tactic(auto, unfolding(crate::specs::SitesAt::partners_of))]
fn add_partners(
    sites: &mut Seq<Site>,
    ground: &Ground<'_>,
    stand: Stand,
    target: &Target<'_>,
) -> Result<(), SiteError>
    requires { IsEnough (known_of ground.now.checked.now) ground.now.noted.now stand.token }
    ensures { IsAdded sites.old
        (map (pair_on stand target.now.entry.now.name (slot_of target.now.entry.now.variable))
        (partners_of (known_of ground.now.checked.now) ground.now.constants.now stand.token target.now.place (plain_type target.now.ctype.now)))
        result sites.new }
{
    add_variable_pairs(sites, ground, stand, target)?;
    add_constant_pairs(sites, stand, target.entry, ground.constants)
}

/// Adds the pairs of the variable at the place, which has this type.
fn add_pairs_of(
    sites: &mut Seq<Site>,
    ground: &Ground<'_>,
    stand: Stand,
    place: u32,
    ctype: &CType,
) -> Result<(), SiteError>
    requires { IsEnough (known_of ground.now.checked.now) ground.now.noted.now stand.token }
    ensures { IsAdded sites.old
        (pairs_of (body_of ground.now) stand place (plain_type ctype.now) (slice_get (known_of ground.now.checked.now).variables place))
        result sites.new }
{
    match variable_at(ground.checked, place as usize) {
        None => Ok(()),
        Some(entry) => {
            let target = Target {
                entry,
                place,
                ctype,
            };
            add_partners(sites, ground, stand, &target)
        }
    }
}

/// Adds the pairs of the variable at the place whose name stands at the token, where it holds a number.
fn add_pairs_on(
    sites: &mut Seq<Site>,
    ground: &Ground<'_>,
    stand: Stand,
    place: u32,
    target: u32,
) -> Result<(), SiteError>
    requires { IsEnough (known_of ground.now.checked.now) ground.now.noted.now stand.token }
    ensures { IsAdded sites.old (pairs_on (body_of ground.now) stand (Some place) (declared_at (known_of ground.now.checked.now) target)) result sites.new }
{
    match ground.checked.declared_type(target as usize) {
        None => Ok(()),
        Some(ctype) => {
            if !is_arithmetic(ctype) {
                return Ok(());
            }
            add_pairs_of(sites, ground, stand, place, ctype)
        }
    }
}

/// Adds the pairs of the variable whose name stands at the token `target`, where it holds a number.
pub fn add_pairs(
    sites: &mut Seq<Site>,
    ground: &Ground<'_>,
    stand: Stand,
    target: u32,
) -> Result<(), SiteError>
    requires { IsEnough (known_of ground.now.checked.now) ground.now.noted.now stand.token }
    ensures { IsAdded sites.old (named_pairs (body_of ground.now) stand target) result sites.new }
{
    match ground.checked.place_at(target as usize) {
        None => Ok(()),
        Some(place) => add_pairs_on(sites, ground, stand, place, target),
    }
}
