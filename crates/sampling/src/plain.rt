ghost use Rattle.std.specs.Prelude.{◌≡◌, ◌↔◌, ◌<◌, ◌^◌, length, IsTrue};
ghost use Rattle.std.specs.List.{All, sum_by};
ghost use Rattle.flow.specs.Words.{view, ArePlain, IsPlain};
ghost use Rattle.clone_paths.specs.Cloned.{MayClone};

use flow::{Function, Node, Program, View, view_of};

/// The most nodes of a program that is sampled.
pub const NODES_LIMIT: usize = 2_000_000;

/// Whether a node may stand in a program that isn't sampled yet.
fn is_plain(node: Node) -> bool
    ensures { IsTrue result ↔ IsPlain (view node) }
{
    match view_of(node) {
        View::Skips { .. } | View::Tests { .. } | View::Picks { .. } => false,
        View::Imports { .. } | View::Exports { .. } => false,
        _ => true,
    }
}

fn are_plain(nodes: &[Node]) -> bool
    ensures { IsTrue result ↔ ArePlain nodes.now }
{
    nodes.iter().all(|node| is_plain(*node))
}

/// Whether no function has a node of a sampled program.
fn each_is_plain(functions: &[Function]) -> bool
    ensures { IsTrue result ↔ All (λ f. ArePlain f.nodes) functions.now }
{
    functions
        .iter()
        .all(|function| are_plain(function.nodes.as_slice()))
}

/// How many nodes the functions have together.
fn node_count(functions: &[Function]) -> usize
    requires { sum_by (λ f. length f.nodes) functions.now < 2 ^ 64 }
    ensures { result ≡ sum_by (λ f. length f.nodes) functions.now }
{
    let mut nodes = 0;
    for function in functions {
        nodes += function.nodes.len();
    }
    nodes
}

/// Whether a program may be sampled: no node of it belongs to sampling, and it has at most 2,000,000 nodes.
pub fn may_clone(program: &Program) -> bool
    ensures { IsTrue result ↔ MayClone program.now }
{
    let functions = program.functions();
    each_is_plain(functions) && node_count(functions) <= NODES_LIMIT
}
