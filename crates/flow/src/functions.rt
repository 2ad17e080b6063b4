ghost use Rattle.std.specs.Prelude.{◌≡◌, ◌↔◌, ◌<◌, ◌≤◌, ◌^◌, length, IsTrue, IfOk};
ghost use Rattle.std.specs.List.{All, sum_by};
ghost use Rattle.flow.specs.Limits.{local_limit, node_limit};
ghost use Rattle.flow.specs.Program.{AreDistinct, AreFew, AreLocals, FunctionsFit, HasMain, IsFunction, IsMain, bounds_of, is_size};

use crate::program::Function;
use crate::scope::{Bounds, NODE_LIMIT, Names, nodes_fit};
use cbi_base::Memory;
use std::alloc::Global as Heap;
use std::collections::BTreeMap;

const FUNCTION_LIMIT: usize = 65_536;

const LOCAL_LIMIT: usize = 200_000;

const SIZE_LIMIT: u32 = 1_048_576;

/// Whether a local may have so many cells.
pub fn is_size(size: u32) -> bool
    ensures { result ≡ is_size size }
{
    1 <= size && size <= SIZE_LIMIT
}

fn are_sizes(sizes: &[u32]) -> bool
    ensures { IsTrue result ↔ All (λ size. IsTrue (is_size size)) sizes.now }
{
    sizes.iter().all(|size| is_size(*size))
}

fn are_single(sizes: &[u32]) -> bool
    ensures { IsTrue result ↔ All (λ size. size ≡ 1) sizes.now }
{
    sizes.iter().all(|size| *size == 1)
}

/// Whether a function may have these locals, of which so many are parameters.
fn are_locals(params: u32, locals: &[u32]) -> bool
    ensures { IsTrue result ↔ AreLocals params locals.now }
{
    let params = params as usize;
    params <= locals.len() && are_sizes(locals) && are_single(&locals[..params])
}

/// What the nodes of the function with this number may name besides.
fn bounds_of(number: u32, function: &Function) -> Bounds
    requires locals { length function.now.locals ≤ local_limit }
    requires nodes { length function.now.nodes ≤ node_limit }
    ensures { result ≡ bounds_of number function.now }
{
    Bounds {
        function: number,
        locals: function.locals.len() as u32,
        nodes: function.nodes.len() as u32,
    }
}

fn is_function(names: &Names, number: u32, function: &Function) -> bool
    requires locals { length function.now.locals ≤ local_limit }
    requires nodes { length function.now.nodes ≤ node_limit }
    ensures { IsTrue result ↔ IsFunction names.now number function.now }
{
    let nodes = function.nodes.as_slice();
    let _name = function.name.bytes();
    if nodes.is_empty() || !are_locals(function.params, function.locals.as_slice()) {
        return false;
    }
    nodes_fit(names, bounds_of(number, function), nodes)
}

fn have_few_locals(functions: &[Function]) -> bool
    ensures { IsTrue result ↔ All (λ f. length f.locals ≤ local_limit) functions.now }
{
    functions
        .iter()
        .all(|function| function.locals.len() <= LOCAL_LIMIT)
}

fn have_few_nodes(functions: &[Function]) -> bool
    ensures { IsTrue result ↔ All (λ f. length f.nodes ≤ node_limit) functions.now }
{
    functions
        .iter()
        .all(|function| function.nodes.len() <= NODE_LIMIT as usize)
}

/// How many locals and how many nodes the functions have together.
fn totals(functions: &[Function]) -> (usize, usize)
    requires locals { sum_by (λ f. length f.locals) functions.now < 2 ^ 64 }
    requires nodes { sum_by (λ f. length f.nodes) functions.now < 2 ^ 64 }
    ensures locals { result.0 ≡ sum_by (λ f. length f.locals) functions.now }
    ensures nodes { result.1 ≡ sum_by (λ f. length f.nodes) functions.now }
{
    let mut locals = 0;
    let mut nodes = 0;
    for function in functions {
        locals += function.locals.len();
        nodes += function.nodes.len();
    }
    (locals, nodes)
}

/// Whether the functions are few, with few locals and few nodes together.
pub(crate) fn are_few(functions: &[Function]) -> bool
    ensures { IsTrue result ↔ AreFew functions.now }
{
    if functions.is_empty() || functions.len() > FUNCTION_LIMIT {
        return false;
    }
    if !have_few_locals(functions) || !have_few_nodes(functions) {
        return false;
    }
    let (locals, nodes) = totals(functions);
    locals <= LOCAL_LIMIT && nodes <= NODE_LIMIT as usize
}

/// Whether each function keeps the conditions on a program's functions.
pub(crate) fn functions_fit(names: &Names, functions: &[Function]) -> bool
    requires { AreFew functions.now }
    ensures { IsTrue result ↔ FunctionsFit names.now functions.now }
{
    for (number, function) in functions.iter().enumerate() {
        if !is_function(names, number as u32, function) {
            return false;
        }
    }
    true
}

/// Whether no two functions have one name.
pub(crate) fn are_distinct(alloc: Heap, functions: &[Function]) -> Result<bool, Memory>
    ensures { IfOk result (λ are. IsTrue are ↔ AreDistinct functions.now) }
{
    let mut known: BTreeMap<&[u8], ()> = BTreeMap::new(alloc);
    for function in functions {
        let name = function.name.bytes();
        if known.get(name).is_some() {
            return Ok(false);
        }
        known.insert(name, ())?;
    }
    Ok(true)
}

/// Whether a run may enter this function first.
fn is_main(function: &Function) -> bool
    ensures { IsTrue result ↔ IsMain function.now }
{
    function.value && function.params == 0
}

/// Whether a run may enter the function with this number first.
pub(crate) fn has_main(functions: &[Function], main: u32) -> bool
    ensures { IsTrue result ↔ HasMain functions.now main }
{
    match functions.get(main as usize) {
        None => false,
        Some(function) => is_main(function),
    }
}
