ghost use Rattle.std.specs.Prelude.{◌≡◌, ◌==◌, ◌+◌, ◌<◌, IfOk, length, option_map, ◌≤◌};
ghost use Rattle.std.specs.Option.{option_copied};
ghost use Rattle.c_syntax.specs.Plain.{plain_entries};
ghost use Rattle.lower_relation.specs.Functions.{BodyDoes};
ghost use Rattle.lower.specs.Bodies.{BodyBegins, BodyNodes, EndPart, GivesPart, LeavesPart};
ghost use Rattle.lower_statements.specs.Exits.{exits_of};
ghost use Rattle.lower.specs.Fits.{HasFitting, StandWhereFitting, bounds_with, names_in};
ghost use Rattle.lower.specs.Ready.{AllMayStand};
ghost use Rattle.lower_relation.specs.Room.{body_room, function_room};
ghost use Rattle.lower_nodes.specs.Ends.{AllBelow, all_ends};
ghost use Rattle.lower_nodes.specs.Made.{MadeAlone, MadeExits};
ghost use Rattle.flow.specs.Words.{node_limit, NodesFit};
ghost use Rattle.lower_facts.specs.Facts.{facts_in, sites_in, source_in};

use c_meaning::ValueType;
use c_syntax::Entry;
use cbi_base::{Kind, Memory};
use flow::Node;
use lower_facts::{Signature, TreeFacts};
use lower_nodes::{Graph, finish, put_stuck};
use lower_statements::{Exits, emit_entries, next_at};
use lower_trees::has_value;
use std::alloc::Global;

/// Where a function with a result gives it; no other one comes to a value.
#[tactic(auto, using(crate::proofs::Bodying::gives_parts))]
fn put_gives(graph: &mut Graph, value: bool) -> Result<u32, Memory>
    requires room { length graph.old + 2 ≤ node_limit }
    ensures made { IfOk result (λ i. MadeAlone (GivesPart value) graph.old graph.new i 0) }
    ensures few { IfOk result (λ i. length graph.new ≤ length graph.old + 2) }
{
    if value {
        let gives = graph.put(Node::Return)?;
        return Ok(gives);
    }
    let stuck = put_stuck(graph, 0)?;
    Ok(stuck)
}

/// Where control goes after the last statement: `main` gives 0 (C99 5.1.2.2.3), and any other function is left.
#[tactic(auto, using(crate::proofs::Bodying::end_parts))]
fn put_end(graph: &mut Graph, is_main: bool, value: bool, exits: Exits) -> Result<u32, Memory>
    requires room { length graph.old + 1 ≤ node_limit }
    requires next { (exits_of exits).next ≡ (exits_of exits).leaves }
    ensures made { IfOk result (λ i. MadeExits (EndPart is_main value) graph.old graph.new i (exits_of exits)) }
    ensures few { IfOk result (λ i. length graph.new ≤ length graph.old + 1) }
{
    if is_main && value {
        let zero = graph.put(Node::Push {
            kind: Kind::Int,
            value: 0,
            next: exits.gives,
        })?;
        return Ok(zero);
    }
    Ok(exits.leaves)
}

/// How a function is left. No `break` and no `continue` stands outside a loop.
fn put_exits(graph: &mut Graph, is_main: bool, value: bool) -> Result<Exits, Memory>
    requires room { length graph.old + 6 ≤ node_limit }
    ensures made { IfOk result (λ exits. MadeAlone (LeavesPart is_main value) graph.old graph.new (exits_of exits).leaves (exits_of exits)) }
    ensures below { IfOk result (λ exits. AllBelow (length graph.new) (all_ends (exits_of exits))) }
    ensures few { IfOk result (λ exits. length graph.new ≤ length graph.old + 6) }
{
    let stuck = put_stuck(graph, 0)?;
    let leaves = graph.put(Node::Leave)?;
    let gives = put_gives(graph, value)?;
    let exits = Exits {
        next: leaves,
        breaks: stuck,
        continues: stuck,
        gives,
        leaves,
    };
    let next = put_end(graph, is_main, value, exits)?;
    Ok(next_at(exits, next))
}

/// The body of a function with this result, where it has one.
#[tactic(auto, using(crate::proofs::Bodying::body_parts))]
fn put_body(
    graph: &mut Graph,
    facts: &TreeFacts,
    gives: ValueType,
    body: Option<&[Entry]>,
    exits: Exits,
) -> Result<u32, Memory>
    requires room { length graph.old + body_room (sites_in facts.now) (option_map plain_entries (option_copied body)) ≤ node_limit }
    ensures made { IfOk result (λ i. MadeExits
        (λ G. BodyDoes G (facts_in facts.now) (sites_in facts.now) gives (option_map plain_entries (option_copied body.entry))) graph.old graph.new i
        (exits_of exits)) }
    ensures few { IfOk result (λ i. length graph.new ≤ length graph.old
        + body_room (sites_in facts.now) (option_map plain_entries (option_copied body.entry))) }
{
    match body {
        None => {
            let stuck = put_stuck(graph, exits.next)?;
            Ok(stuck)
        }
        Some(entries) => {
            let i = emit_entries(graph, facts, gives, entries, exits)?;
            Ok(i)
        }
    }
}

/// The node where a function begins, which is the last one that is put: the body's entry, or one that passes control on to it.
#[tactic(auto, using(crate::proofs::Bodying::start_parts))]
fn put_start(graph: &mut Graph, entry: u32) -> Result<u32, Memory>
    requires room { length graph.old + 1 ≤ node_limit }
    ensures begins { IfOk result (λ i. BodyBegins graph.old graph.new i entry) }
    ensures last { IfOk result (λ i. length graph.new ≡ i + 1) }
    ensures few { IfOk result (λ i. length graph.new ≤ length graph.old + 1) }
{
    if graph.nodes().len() == entry as usize + 1 {
        return Ok(entry);
    }
    let i = graph.put(Node::Pass { next: entry })?;
    Ok(i)
}

/// Nodes that do the body of a function with this result, in the order of a program. Where it is a body that fits, each of them may stand in a
/// program, and in one that is to be sampled.
fn body_nodes(
    alloc: Global,
    facts: &TreeFacts,
    is_main: bool,
    gives: ValueType,
    body: Option<&[Entry]>,
) -> Result<Vec<Node>, Memory>
    requires room { function_room (sites_in facts.now) (option_map plain_entries (option_copied body)) ≤ node_limit }
    ensures body { IfOk result (λ nodes. BodyNodes (facts_in facts.now) (sites_in facts.now) is_main gives
        (option_map plain_entries (option_copied body.entry)) nodes.items) }
    ensures stand { IfOk result (λ nodes. StandWhereFitting (source_in facts.now) gives (option_map plain_entries (option_copied body.entry)) nodes.items) }
    ensures some { IfOk result (λ nodes. 0 < length nodes.items) }
    ensures few { IfOk result (λ nodes. length nodes.items ≤ function_room (sites_in facts.now) (option_map plain_entries (option_copied body.entry))) }
{
    let mut graph = Graph::new(alloc);
    let exits = put_exits(&mut graph, is_main, has_value(gives))?;
    let entry = put_body(&mut graph, facts, gives, body, exits)?;
    let _start = put_start(&mut graph, entry)?;
    let nodes = finish(alloc, &graph)?;
    Ok(nodes)
}

/// The nodes of the function with this number and signature, in the order of a program. Each of them may stand in a program, and in one that is
/// to be sampled.
pub fn emit_function(
    alloc: Global,
    facts: &TreeFacts<'_>,
    number: u32,
    signature: &Signature,
) -> Result<Vec<Node>, Memory>
    requires fits { HasFitting (source_in facts.now) (names_in facts.now) number signature.now ((source_in facts.now).body number) }
    requires room { function_room (sites_in facts.now) ((source_in facts.now).body number) ≤ node_limit }
    ensures body { IfOk result (λ nodes. BodyNodes (facts_in facts.now) (sites_in facts.now) (number == (source_in facts.now).main)
        signature.now.result ((source_in facts.now).body number) nodes.items) }
    ensures stand { IfOk result (λ nodes. AllMayStand (sites_in facts.now).site nodes.items) }
    ensures entry { IfOk result (λ nodes. 0 < length nodes.items) }
    ensures fit { IfOk result (λ nodes. NodesFit (names_in facts.now) (bounds_with number signature.now (length nodes.items)) nodes.items) }
    ensures few { IfOk result (λ nodes. length nodes.items ≤ function_room (sites_in facts.now) ((source_in facts.now).body number)) }
{
    let is_main = number == facts.main();
    let body = facts.body(number);
    let nodes = body_nodes(alloc, facts, is_main, signature.gives(), body)?;
    Ok(nodes)
}
