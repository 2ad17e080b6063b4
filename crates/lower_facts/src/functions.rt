ghost use Rattle.std.specs.Prelude.{◌≡◌, IfOk, map};
ghost use Rattle.c_types.specs.Answers.{known_of, tree_of};
ghost use Rattle.c_meaning.specs.Texts.{main_of, number_defined};
ghost use Rattle.lower_trees.specs.Bodies.{definition_places};
ghost use Rattle.lower_facts.specs.Signatures.{AreSized, signature_of_entry};

use crate::function_types::{Signature, signatures};
use c_types::Checked;
use c_types_expressions::Meaning;
use cbi_base::{Memory, Name, Seq};
use lower_trees::body_places;
use std::alloc::Global;

/// The defined functions: their signatures, the places of the items that define them, and the number of `main`.
#[derive(Drop)]
pub struct Functions {
    pub signatures: Seq<Option<Signature>>,
    pub bodies: Vec<usize>,
    pub main: u32,
}

/// The number of the defined function that a name means.
fn number_defined(checked: &Checked, meaning: Option<Meaning>) -> Option<u32>
    ensures { result ≡ number_defined (known_of checked.now) meaning }
{
    match meaning {
        Some(Meaning::Function { index }) => match checked.defined_as().get(index as usize) {
            None => None,
            Some(number) => *number,
        },
        _ => None,
    }
}

/// The number of the function `main`.
fn main_of(alloc: Global, checked: &Checked) -> Result<u32, Memory>
    ensures { IfOk result (λ number. number ≡ main_of (known_of checked.now)) }
{
    match Name::new(alloc, b"main".as_slice())? {
        None => Ok(0),
        Some(name) => Ok(number_defined(checked, checked.find(&name)).unwrap_or(0)),
    }
}

/// The defined functions of a checked tree.
pub(crate) fn functions_of(alloc: Global, checked: &Checked) -> Result<Functions, Memory>
    requires { AreSized (known_of checked.now) }
    ensures signatures { IfOk result (λ f. f.signatures ≡ map (signature_of_entry (known_of checked.now)) (known_of checked.now).definitions) }
    ensures bodies { IfOk result (λ f. f.bodies.items ≡ definition_places 0 (tree_of checked.now).items) }
    ensures main { IfOk result (λ f. f.main ≡ main_of (known_of checked.now)) }
{
    let main = main_of(alloc, checked)?;
    Ok(Functions {
        signatures: signatures(alloc, checked)?,
        bodies: body_places(alloc, checked.tree().items.as_slice())?,
        main,
    })
}
