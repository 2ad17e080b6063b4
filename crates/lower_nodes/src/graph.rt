ghost use Rattle.std.specs.Prelude.{◌≡◌, ◌+◌, ◌<◌, ◌≤◌, ◌++◌, List, [], ◌∷◌, length, IfOk, slice_set};
ghost use Rattle.flow.specs.declared.node.Node.{Node};
ghost use Rattle.flow.specs.declared.node.Node.TheVariants.{Again};

use cbi_base::Memory;
use flow::Node;
use std::alloc::Global;
use std::marker::Model;

/// A graph that grows: each node is put after those where control goes on behind it. So its numbers run against the order of the program.
#[derive(Drop)]
pub struct Graph {
    nodes: Vec<Node>,
}

impl Model for Graph {
    ghost use Rattle.std.specs.Prelude.{List, length, ◌≤◌};
    ghost use Rattle.flow.specs.declared.node.Node.{Node};

    ghost Value = { List Node };

    ghost view = { λ g. g.nodes.items };

    ghost invariant = { λ g. length g.nodes.items ≤ 16000000 };
}

impl Graph {
    /// A graph without nodes.
    pub fn new(alloc: Global) -> Graph
        ensures { result ≡ [] }
    {
        Graph {
            nodes: Vec::new(alloc),
        }
    }

    /// Adds a node, and answers its number. A graph with more nodes than a program may have isn't made for want of memory; the nodes
    /// of a text are far fewer.
    pub fn put(&mut self, node: Node) -> Result<u32, Memory>
        requires { length self.old < 16000000 }
        ensures number { IfOk result (λ i. i ≡ length self.old) }
        ensures added { IfOk result (λ i. self.new ≡ self.old ++ node ∷ []) }
        ensures one { IfOk result (λ i. length self.new ≡ length self.old + 1) }
    {
        let number = self.nodes.len() as u32;
        self.nodes.push(node)?;
        Ok(number)
    }

    /// Lets the `again` with this number go on at a node.
    pub fn aim(&mut self, again: u32, head: u32)
        requires { again < length self.old }
        ensures aimed { self.new ≡ slice_set self.old again (Again head) }
        ensures same { length self.new ≡ length self.old }
    {
        self.nodes[again as usize] = Node::Again { next: head };
    }

    /// Its nodes, by their numbers.
    pub fn nodes(&self) -> &[Node]
        ensures value { result.now ≡ self.now }
        ensures few { length self.now ≤ 16000000 }
    {
        self.nodes.as_slice()
    }
}
