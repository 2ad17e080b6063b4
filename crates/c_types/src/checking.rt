ghost use Rattle.std.specs.Prelude.{◌≡◌, None, IfOk, IfErr, OnOk, Some};
ghost use Rattle.c_syntax.specs.Words.{IsKeptTree, plain_tree};
ghost use Rattle.c_types.specs.Answers.{IsChecked, IsTypeFault, tree_of};
ghost use Rattle.c_types.specs.Fault.{begins_program, fault_of, first_undefined, has_main, is_main, lacks_definition, last_fault};

use crate::checked::{Checked, TypeFault};
use c_syntax::Tree;
use c_types_expressions::{FunctionEntry, Meaning, Stop, Walk};
use c_types_rules::{CType, FaultKind};
use c_types_walk::{is_defined, walk_items};
use cbi_base::{Memory, Name};
use std::alloc::Global;

/// Whether a function is `int main` without parameters.
fn begins_program(function: &FunctionEntry) -> bool
    ensures { result ≡ begins_program (Some function.now) }
{
    matches!(function.ctype.gives.shape(), CType::Int) && function.ctype.params.is_empty()
}

/// Whether a name means a definition of `int main` without parameters.
fn is_main(walk: &Walk, meaning: Option<Meaning>) -> bool
    ensures { result ≡ is_main meaning walk.now }
{
    let Some(Meaning::Function { index }) = meaning else {
        return false;
    };
    match walk.functions.as_slice().get(index as usize) {
        None => false,
        Some(function) => {
            begins_program(function) && is_defined(index, walk.defined_as.as_slice())
        }
    }
}

/// Whether the text has a definition of `int main` without parameters.
fn has_main(alloc: Global, walk: &Walk) -> Result<bool, Memory>
    ensures { IfOk result (λ has. has ≡ has_main walk.now) }
{
    match Name::new(alloc, b"main".as_slice())? {
        None => Ok(false),
        Some(name) => Ok(is_main(walk, walk.names.find(&name))),
    }
}

/// Whether a function without definition is called.
fn lacks_definition(call: &Option<u32>, defined_as: &[Option<u32>]) -> bool
    ensures { result ≡ lacks_definition call.now defined_as.now }
{
    match call {
        None => false,
        Some(index) => !is_defined(*index, defined_as),
    }
}

/// The first token at which a function without definition is called.
fn first_undefined(calls: &[Option<u32>], defined_as: &[Option<u32>]) -> Option<usize>
    ensures { result ≡ first_undefined 0 calls.now defined_as.now }
{
    let mut token = 0;
    for call in calls {
        if lacks_definition(call, defined_as) {
            return Some(token);
        }
        token += 1;
    }
    None
}

/// The fault behind the last item: no definition of `main`, or a called function without one.
fn last_fault(
    alloc: Global,
    walk: &Walk,
    count: usize,
) -> Result<Option<(FaultKind, usize)>, Memory>
    ensures { IfOk result (λ fault. fault ≡ last_fault count walk.now) }
{
    if !has_main(alloc, walk)? {
        return Ok(Some((FaultKind::NoMain, count)));
    }
    let calls = walk.functions_at.as_slice();
    match first_undefined(calls, walk.defined_as.as_slice()) {
        None => Ok(None),
        Some(token) => Ok(Some((FaultKind::NoDefinition, token))),
    }
}

/// Walks a tree, as a parser gives it. It is accepted exactly where the walk meets no fault; else the answer is its first fault.
pub fn check(alloc: Global, tree: Tree) -> Result<Checked, TypeFault>
    requires kept { IsKeptTree (plain_tree tree) }
    ensures accepted { OnOk result (fault_of (plain_tree tree) ≡ None) }
    ensures same { IfOk result (λ c. tree_of c ≡ plain_tree tree) }
    ensures known { IfOk result (λ c. IsChecked c) }
    ensures refused { IfErr result (λ e. IsTypeFault (fault_of (plain_tree tree)) e) }
{
    let count = tree.lines.len();
    let Ok(mut walk) = Walk::new(alloc, count) else {
        return Err(TypeFault::Memory);
    };
    match walk_items(alloc, &mut walk, tree.items.as_slice()) {
        Err(Stop::Memory) => return Err(TypeFault::Memory),
        Err(Stop::Fault { kind, index }) => {
            return Err(TypeFault::BadType {
                kind: kind.number(),
                index: index as usize,
            });
        }
        Ok(()) => {}
    }
    match last_fault(alloc, &walk, count) {
        Err(_) => Err(TypeFault::Memory),
        Ok(Some((kind, index))) => Err(TypeFault::BadType {
            kind: kind.number(),
            index,
        }),
        Ok(None) => Ok(Checked::new(tree, walk)),
    }
}
