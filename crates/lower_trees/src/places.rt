ghost use Rattle.std.specs.Prelude.{◌≡◌, ℕ, ◌+◌, ◌≤◌, ◌<◌, ◌==◌, ◌∷◌, ◌++◌, [], if◌then◌else◌, length, OnOk, slice_set};
ghost use Rattle.c_meaning.specs.Texts.{head_site};
ghost use Rattle.lower_trees.specs.Places.{all_at};

use cbi_base::{Memory, Seq};
use std::alloc::Global;

/// So many places at least, of which the new ones are empty.
#[tactic(auto, using(crate::proofs::Placed::listed_grown))]
fn grow(alloc: Global, lists: &mut Vec<Seq<u32>>, count: usize) -> Result<(), Memory>
    ensures long { OnOk result (count ≤ length lists.new.items) }
    ensures same { OnOk result ((token : ℕ) → all_at lists.new.items token ≡ all_at lists.old.items token) }
{
    while lists.len() < count {
        lists.push(Seq::new(alloc))?;
    }
    Ok(())
}

/// One more number at a place.
fn put(lists: &mut [Seq<u32>], place: usize, number: u32) -> Result<(), Memory>
    requires { place < length lists.old }
    ensures { OnOk result (lists.new ≡ slice_set lists.old place (all_at lists.old place ++ number ∷ [])) }
{
    lists[place].push(number)?;
    Ok(())
}

/// One more number at a token.
#[tactic(auto, using(crate::proofs::Placed::added))]
pub(crate) fn add(
    alloc: Global,
    lists: &mut Vec<Seq<u32>>,
    token: u32,
    number: u32,
) -> Result<(), Memory>
    ensures { OnOk result ((other : ℕ) → all_at lists.new.items other
        ≡ (if token == other then all_at lists.old.items other ++ number ∷ [] else all_at lists.old.items other)) }
{
    grow(alloc, lists, token as usize + 1)?;
    put(lists.as_mut_slice(), token as usize, number)?;
    Ok(())
}

/// The numbers at a token.
pub fn at_token(lists: &[Seq<u32>], token: u32) -> &[u32]
    ensures { result.now ≡ all_at lists.now token }
{
    match lists.get(token as usize) {
        None => &[],
        Some(list) => list.as_slice(),
    }
}

/// The numbers at the token behind this one.
pub fn behind_token(lists: &[Seq<u32>], token: u32) -> &[u32]
    ensures { result.now ≡ all_at lists.now (token + 1) }
{
    match lists.get(token as usize + 1) {
        None => &[],
        Some(list) => list.as_slice(),
    }
}

/// The first number at a token.
pub fn first_at(lists: &[Seq<u32>], token: u32) -> Option<u32>
    ensures { result ≡ head_site (all_at lists.now token) }
{
    match at_token(lists, token) {
        [] => None,
        [first, ..] => Some(*first),
    }
}
