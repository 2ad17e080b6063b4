ghost use Rattle.std.specs.Prelude.{◌≡◌, map, is_some};
ghost use Rattle.std.specs.Str.{bytes_eq};
ghost use Rattle.c_syntax.specs.Plain.{plain_item};
ghost use Rattle.c_types_rules.specs.TypeTree.{Struct};
ghost use Rattle.c_types.specs.Answers.{known_of, tree_of};
ghost use Rattle.c_meaning.specs.Known.{base_named, named_cells, object_cells, struct_number};

use c_syntax::{Base, Item};
use c_types::Checked;
use c_types_rules::StructType;
use cbi_base::Name;

/// The most cells of an object.
const MOST_CELLS: u32 = 1_048_576;

/// The number of the struct with this tag, in the order of the definitions.
fn struct_number(tag: &Name, items: &[Item]) -> Option<usize>
    ensures { result ≡ struct_number 0 tag.now (map plain_item items.now) }
{
    let mut number: usize = 0;
    for item in items {
        if let Item::Struct { tag: other, .. } = item {
            if is_tag(other, tag) {
                return Some(number);
            }
            number += 1;
        }
    }
    None
}

/// Whether two tags are the same.
fn is_tag(other: &Name, tag: &Name) -> bool
    ensures { result ≡ bytes_eq other.now tag.now }
{
    other.bytes() == tag.bytes()
}

/// How many cells an object of the struct with this number has, where it has any.
fn struct_object(structs: &[StructType], number: usize) -> Option<u32>
    ensures { result ≡ object_cells structs.now (Struct number) }
{
    let known = structs.get(number)?;
    if known.cells <= MOST_CELLS {
        Some(known.cells)
    } else {
        None
    }
}

/// How many cells an object of the base has, where it has any.
fn base_cells(checked: &Checked, base: &Base) -> Option<u32>
    ensures { result ≡ named_cells (tree_of checked.now) (known_of checked.now).structs base.now 0 }
{
    match base {
        Base::Void { .. } => None,
        Base::Char { .. } | Base::Int { .. } | Base::Unsigned { .. } => Some(1),
        Base::Struct { tag, .. } => {
            let items = checked.tree().items.as_slice();
            match struct_number(tag, items) {
                None => None,
                Some(number) => struct_object(checked.structs(), number),
            }
        }
    }
}

/// Whether the base names a type.
fn is_named(checked: &Checked, base: &Base) -> bool
    ensures { result ≡ is_some (base_named (tree_of checked.now).items base.now) }
{
    match base {
        Base::Struct { tag, .. } => {
            struct_number(tag, checked.tree().items.as_slice()).is_some()
        }
        Base::Void { .. } | Base::Char { .. } | Base::Int { .. } | Base::Unsigned { .. } => true,
    }
}

/// How many cells an object of a named type has, where it has any: its base, with so many stars. A pointer has one.
#[tactic(auto, using(crate::proofs::Starred::named_pointer))]
pub fn named_cells(checked: &Checked, base: &Base, stars: u32) -> Option<u32>
    ensures { result ≡ named_cells (tree_of checked.now) (known_of checked.now).structs base.now stars }
{
    if stars == 0 {
        return base_cells(checked, base);
    }
    if is_named(checked, base) {
        Some(1)
    } else {
        None
    }
}
