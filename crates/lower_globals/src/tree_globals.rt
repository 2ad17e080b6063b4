ghost use Rattle.std.specs.Prelude.{◌≡◌, ◌++◌, [], IfOk, IfSome, OnOk, length, map, option_map};
ghost use Rattle.std.specs.List.{All, flat_map};
ghost use Rattle.c_syntax.specs.Plain.{plain_item};
ghost use Rattle.c_meaning.specs.Globals.{cells_of_structs, starts_of};
ghost use Rattle.lower_facts.specs.Facts.{facts_in, known_in, source_in, tree_in};
ghost use Rattle.lower_globals.specs.Objects.{all_objects, begun_with, objects_in};
ghost use Rattle.lower_globals.specs.Starts.{IsBegunItem};

use crate::globals::{globals_of_starts, zeros_of_structs};
use c_syntax::Item;
use cbi_base::{Memory, Scalar, Seq};
use flow::Global;
use lower_facts::TreeFacts;
use std::alloc::Global as Heap;

/// The globals that an item declares; None where the initialiser of one gives it nothing.
fn globals_of_item(
    alloc: Heap,
    facts: &TreeFacts<'_>,
    zeros: &[Seq<Scalar>],
    item: &Item,
) -> Result<Option<Seq<Global>>, Memory>
    requires zeros { zeros.now ≡ cells_of_structs (known_in facts.now).structs [] }
    requires begun { IsBegunItem (facts_in facts.now) (known_in facts.now) (plain_item item.now) }
    ensures { IfOk result (λ gs. objects_in facts.now gs ≡ all_objects facts.now (starts_of (plain_item item.now))) }
{
    match item {
        Item::Declaration { declaration } => {
            globals_of_starts(alloc, facts, zeros, declaration.starts.as_slice())
        }
        Item::Struct { .. } | Item::Function { .. } => Ok(Some(Seq::new(alloc))),
    }
}

/// Adds globals behind the others.
fn append(globals: &mut Vec<Global>, more: Seq<Global>) -> Result<(), Memory>
    ensures { OnOk result (globals.new.items ≡ globals.old.items ++ more) }
{
    let mut more = more.into_vec();
    globals.append(&mut more)?;
    Ok(())
}

/// The globals that several items declare; None where the initialiser of one gives it nothing.
fn globals_of_items(
    alloc: Heap,
    facts: &TreeFacts<'_>,
    zeros: &[Seq<Scalar>],
    items: &[Item],
) -> Result<Option<Seq<Global>>, Memory>
    requires zeros { zeros.now ≡ cells_of_structs (known_in facts.now).structs [] }
    requires begun { All (IsBegunItem (facts_in facts.now) (known_in facts.now)) (map plain_item items.now) }
    ensures { IfOk result (λ gs. objects_in facts.now gs ≡ all_objects facts.now (flat_map starts_of (map plain_item items.now))) }
{
    let mut globals = Vec::new(alloc);
    for item in items {
        let Some(more) = globals_of_item(alloc, facts, zeros, item)? else {
            return Ok(None);
        };
        append(&mut globals, more)?;
    }
    Ok(Some(Seq::from_vec(globals)))
}

/// The globals of the text, in the order of their declarations, with what they begin with; None where the initialiser of one gives it
/// nothing.
pub fn globals_of_text(alloc: Heap, facts: &TreeFacts<'_>) -> Result<Option<Vec<Global>>, Memory>
    requires { All (IsBegunItem (facts_in facts.now) (known_in facts.now)) (tree_in facts.now).items }
    ensures objects { IfOk result (λ found. option_map (λ gs. begun_with (facts_in facts.now).statics.texts gs.items) found ≡ (source_in facts.now).objects) }
    ensures count { IfOk result (λ found. IfSome found (λ gs. length gs.items ≡ (facts_in facts.now).statics.globals)) }
{
    let zeros = zeros_of_structs(alloc, facts)?;
    match globals_of_items(alloc, facts, zeros.as_slice(), facts.items())? {
        None => Ok(None),
        Some(globals) => Ok(Some(globals.into_vec())),
    }
}
