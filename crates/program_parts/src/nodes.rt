ghost use Rattle.std.specs.Prelude.{◌≡◌, map, IfOk};
ghost use Rattle.flow.specs.Sites.{PartFits};
ghost use Rattle.program_parts.specs.Program.{part_function, part_node};

use crate::part::{has, number_in};
use cbi_base::{Memory, Seq};
use flow::{Function, Node, Part, copy_of};
use std::alloc::Global;

/// A node as the part's program has it.
fn part_node(part: Part, node: Node) -> Node
    requires { PartFits part }
    ensures { result ≡ part_node part node }
{
    match node {
        Node::Mark { site, next } if has(part, site) => Node::Mark {
            site: number_in(part, site),
            next,
        },
        Node::Mark { next, .. } => Node::Pass { next },
        other => other,
    }
}

fn part_nodes(alloc: Global, nodes: &[Node], part: Part) -> Result<Seq<Node>, Memory>
    requires { PartFits part }
    ensures { IfOk result (λ ns. ns ≡ map (part_node part) nodes.now) }
{
    let mut kept = Vec::with_capacity(alloc, nodes.len())?;
    for node in nodes {
        kept.push(part_node(part, *node))?;
    }
    Ok(Seq::from_vec(kept))
}

fn part_function(alloc: Global, function: &Function, part: Part) -> Result<Function, Memory>
    requires { PartFits part }
    ensures { IfOk result (λ f. f ≡ part_function part function.now) }
{
    let nodes = part_nodes(alloc, function.nodes.as_slice(), part)?;
    let name = function.name.try_clone()?;
    let locals = copy_of(alloc, function.locals.as_slice())?;
    Ok(Function {
        name,
        value: function.value,
        params: function.params,
        locals,
        nodes,
    })
}

/// The functions of the part's program.
pub(crate) fn part_functions(
    alloc: Global,
    functions: &[Function],
    part: Part,
) -> Result<Seq<Function>, Memory>
    requires { PartFits part }
    ensures { IfOk result (λ fs. fs ≡ map (part_function part) functions.now) }
{
    let mut kept = Vec::with_capacity(alloc, functions.len())?;
    for function in functions {
        kept.push(part_function(alloc, function, part)?)?;
    }
    Ok(Seq::from_vec(kept))
}
