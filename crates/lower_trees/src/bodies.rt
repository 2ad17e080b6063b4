ghost use Rattle.std.specs.Prelude.{◌≡◌, ◌++◌, ◌∷◌, [], Some, map, if◌then◌else◌, IfOk, OnOk, is_some, option_map, slice_get};
ghost use Rattle.std.specs.List.{flat_map};
ghost use Rattle.std.specs.Option.{option_copied};
ghost use Rattle.c_syntax.specs.Plain.{plain_entries, plain_item};
ghost use Rattle.c_meaning.specs.Known.{body_of_item};
ghost use Rattle.lower_trees.specs.Bodies.{body_at, body_in, definition_places};

use c_syntax::{Entry, Item};
use cbi_base::Memory;
use std::alloc::Global;

/// The body of an item, if it is a function's definition.
fn body_of_item(item: &Item) -> Option<&[Entry]>
    ensures { option_map plain_entries (option_copied result) ≡ body_in (Some (plain_item item.now)) }
{
    match item {
        Item::Function {
            body: Some(entries),
            ..
        } => Some(entries.as_slice()),
        Item::Function { body: None, .. } | Item::Struct { .. } | Item::Declaration { .. } => None,
    }
}

/// Whether an item defines a function.
fn defines(item: &Item) -> bool
    ensures { result ≡ is_some (body_in (Some (plain_item item.now))) }
{
    match item {
        Item::Function { body: Some(_), .. } => true,
        Item::Function { body: None, .. } | Item::Struct { .. } | Item::Declaration { .. } => false,
    }
}

/// The body of the item at the place.
fn body_at(items: &[Item], place: usize) -> Option<&[Entry]>
    ensures { option_map plain_entries (option_copied result) ≡ body_at (map plain_item items.now) place }
{
    match items.get(place) {
        None => None,
        Some(item) => body_of_item(item),
    }
}

/// The place with this number.
fn place_at(places: &[usize], number: u32) -> Option<usize>
    ensures { result ≡ slice_get places.now number }
{
    places.get(number as usize).copied()
}

/// The body of the function with this number, where these are the places of the items that define functions.
pub fn body_numbered<'a>(items: &'a [Item], places: &[usize], number: u32) -> Option<&'a [Entry]>
    requires { places.now ≡ definition_places 0 (map plain_item items.now) }
    ensures { option_map plain_entries (option_copied result) ≡ slice_get (flat_map body_of_item (map plain_item items.now)) number }
{
    match place_at(places, number) {
        None => None,
        Some(place) => body_at(items, place),
    }
}

/// One more place, where it is to be there.
fn add_place(places: &mut Vec<usize>, holds: bool, place: usize) -> Result<(), Memory>
    ensures { OnOk result (places.new.items ≡ (if holds then places.old.items ++ place ∷ [] else places.old.items)) }
{
    if !holds {
        return Ok(());
    }
    places.push(place)?;
    Ok(())
}

/// The places of the items that define functions.
pub fn body_places(alloc: Global, items: &[Item]) -> Result<Vec<usize>, Memory>
    ensures { IfOk result (λ places. places.items ≡ definition_places 0 (map plain_item items.now)) }
{
    let mut places = Vec::new(alloc);
    let mut place: usize = 0;
    for item in items {
        add_place(&mut places, defines(item), place)?;
        place += 1;
    }
    Ok(places)
}
