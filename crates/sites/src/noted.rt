ghost use Rattle.std.specs.Prelude.{◌≡◌, ◌++◌, ◌∷◌, [], ◌≤◌, true, drop, filter, IfOk, IfSome, OnOk, slice_get};
ghost use Rattle.c_types.specs.Answers.{known_of};
ghost use Rattle.sites.specs.Near.{all_firsts, begins_from, first_from, places_with_scope_left, has_scope_left};
ghost use Rattle.sites.specs.Noted.{IsEnoughFor, IsNoted, IsNotedFor, first_in};
ghost use Rattle.sites.specs.Standing.{EachToken, IsUpTo, StandFrom};
ghost use Rattle.sites.specs.Visible.{all_again, is_clear, least_token};

use crate::spots::{Spot, token_of};
use c_types::Checked;
use c_types_expressions::VariableEntry;
use cbi_base::{Memory, Seq};
use flow::Schemes;
use std::alloc::Global;
use std::collections::HashMap;

/// Of each name the least token behind which the scope of a variable with the name begins.
type Firsts = HashMap<Vec<u8>, u32>;

/// What pairs need to know of the variables. A body's new values are compared with those alone whose scope may hold one of its tokens, so
/// that a text takes no time for the locals of one function at the values of another.
#[derive(Drop)]
pub struct Noted {
    /// For each variable the least token behind which a later one has its name.
    pub again: Seq<Option<u32>>,
    /// For each variable the least token behind which its scope or that of a later one begins.
    pub firsts: Seq<u32>,
    /// The places of the variables, of those seen, whose scope wasn't over where the last body begins.
    pub near: Vec<usize>,
    /// How many variables were seen.
    pub seen: usize,
}

/// The least of the tokens.
fn least(token: u32, other: Option<u32>) -> u32
    ensures { result ≡ least_token token other }
{
    match other {
        None => token,
        Some(other) => { if other < token { other } else { token } }
    }
}

/// Whether no scope of a later variable with the same name begins before the token.
pub fn is_clear(token: u32, again: Option<u32>) -> bool
    ensures { result ≡ is_clear token again }
{
    match again {
        None => true,
        Some(first) => token <= first,
    }
}

/// What is kept of a name.
fn first_in(firsts: &Firsts, name: &[u8]) -> Option<u32>
    ensures { result ≡ first_in firsts.now.entries name.now }
{
    firsts.get(name).copied()
}

/// Keeps where the scope of a variable with the name begins.
fn keep(alloc: Global, firsts: &mut Firsts, name: &[u8], from: u32) -> Result<(), Memory>
    ensures { OnOk result (IsNoted name.now from firsts.old.entries firsts.new.entries) }
{
    let first = least(from, first_in(firsts, name));
    firsts.insert(Vec::from_slice(alloc, name)?, first)?;
    Ok(())
}

/// For each of these variables the least token behind which a later one has its name.
fn all_again(alloc: Global, variables: &[VariableEntry]) -> Result<Seq<Option<u32>>, Memory>
    ensures { IfOk result (λ again. again ≡ all_again variables.now) }
{
    let mut again = Vec::new(alloc);
    let mut firsts = HashMap::new(alloc);
    for place in (0..variables.len()).rev() {
        let variable = &variables[place];
        again.push(first_in(&firsts, variable.name.bytes()))?;
        keep(alloc, &mut firsts, variable.name.bytes(), variable.from)?;
    }
    again.reverse();
    Ok(Seq::from_vec(again))
}

/// For each of these variables the least token behind which its scope or that of a later one begins.
fn all_firsts(alloc: Global, variables: &[VariableEntry]) -> Result<Seq<u32>, Memory>
    ensures { IfOk result (λ firsts. firsts ≡ all_firsts variables.now) }
{
    let mut firsts = Vec::new(alloc);
    let mut first = None;
    for place in (0..variables.len()).rev() {
        let token = least(variables[place].from, first);
        firsts.push(token)?;
        first = Some(token);
    }
    firsts.reverse();
    Ok(Seq::from_vec(firsts))
}

/// What is noted of the variables before the first body.
pub fn noted_for(alloc: Global, checked: &Checked, schemes: Schemes) -> Result<Noted, Memory>
    ensures { IfOk result (IsNotedFor schemes (known_of checked.now) 0) }
{
    if !schemes.pairs {
        return Ok(Noted {
            again: Seq::new(alloc),
            firsts: Seq::new(alloc),
            near: Vec::new(alloc),
            seen: 0,
        });
    }
    let again = all_again(alloc, checked.variables())?;
    let firsts = all_firsts(alloc, checked.variables())?;
    Ok(Noted {
        again,
        firsts,
        near: Vec::new(alloc),
        seen: 0,
    })
}

/// Whether the scope of the variable at the place begins behind this token or a later one.
fn begins_from(checked: &Checked, token: u32, place: usize) -> bool
    ensures { result ≡ begins_from token (slice_get (known_of checked.now).variables place) }
{
    match checked.variables().get(place) {
        None => false,
        Some(variable) => token <= variable.from,
    }
}

/// Whether the scope of the variable at the place isn't over at the token.
fn lasts(checked: &Checked, token: u32, place: usize) -> bool
    ensures { result ≡ has_scope_left (known_of checked.now) token place }
{
    begins_from(checked, token, place) || checked.scope_holds(place, token)
}

/// Leaves the places of variables whose scope isn't over at the token.
fn keep_lasting(near: &mut Vec<usize>, checked: &Checked, token: u32)
    ensures { near.new.items ≡ filter (has_scope_left (known_of checked.now) token) near.old.items }
{
    near.retain(|place| lasts(checked, token, *place));
}

/// Adds the place, if the scope of its variable isn't over at the token.
fn add_lasting(
    near: &mut Vec<usize>,
    checked: &Checked,
    token: u32,
    place: usize,
) -> Result<(), Memory>
    ensures { OnOk result (near.new.items ≡ near.old.items ++ filter (has_scope_left (known_of checked.now) token) (place ∷ [])) }
{
    if !lasts(checked, token, place) {
        return Ok(());
    }
    near.push(place)?;
    Ok(())
}

/// Where a scope begins at the earliest, of the variable at the place and those behind it.
fn first_at(firsts: &[u32], place: usize) -> Option<u32>
    ensures { result ≡ slice_get firsts.now place }
{
    firsts.get(place).copied()
}

/// Goes on through the variables as far as a scope may begin before the token `last`, and adds the places of those whose scope isn't over at
/// the token `begin`. It answers how many are seen then.
fn see_more(
    near: &mut Vec<usize>,
    seen: usize,
    checked: &Checked,
    firsts: &[u32],
    begin: u32,
    last: u32,
) -> Result<usize, Memory>
    requires firsts { firsts.now ≡ all_firsts (known_of checked.now).variables }
    requires near { near.old.items ≡ places_with_scope_left (known_of checked.now) begin seen }
    ensures near { IfOk result (λ seen. near.new.items ≡ places_with_scope_left (known_of checked.now) begin seen) }
    ensures clear { IfOk result (λ seen. is_clear last (first_from (drop seen (known_of checked.now).variables)) ≡ true) }
{
    let mut seen = seen;
    while !is_clear(last, first_at(firsts, seen)) {
        add_lasting(near, checked, begin, seen)?;
        seen += 1;
    }
    Ok(seen)
}

/// The later of the tokens.
fn later(token: Option<u32>, other: u32) -> u32
    ensures token { IfSome token (IsUpTo result) }
    ensures other { IsUpTo result other }
{
    match token {
        None => other,
        Some(token) => { if other < token { token } else { other } }
    }
}

/// A token behind which none of the constructs stands.
fn latest(spots: &[Spot]) -> u32
    ensures { EachToken (IsUpTo result) spots.now }
{
    let mut last = 0;
    for spot in spots {
        last = later(token_of(spot), last);
    }
    last
}

/// Goes on to a body that begins at the token and holds these constructs.
pub fn note_body(
    noted: &mut Noted,
    checked: &Checked,
    schemes: Schemes,
    begin: u32,
    spots: &[Spot],
) -> Result<(), Memory>
    requires noted { IsNotedFor schemes (known_of checked.now) begin noted.old }
    requires within { StandFrom begin spots.now }
    ensures noted { OnOk result (IsNotedFor schemes (known_of checked.now) begin noted.new) }
    ensures enough { OnOk result (EachToken (IsEnoughFor schemes (known_of checked.now) noted.new) spots.now) }
{
    if !schemes.pairs {
        return Ok(());
    }
    let last = latest(spots);
    keep_lasting(&mut noted.near, checked, begin);
    let firsts = noted.firsts.as_slice();
    noted.seen = see_more(&mut noted.near, noted.seen, checked, firsts, begin, last)?;
    Ok(())
}
