ghost use Rattle.flow.specs.Limits.{node_limit};
ghost use Rattle.std.specs.Prelude.{IfOk, length, ◌≤◌, ◌+◌};
ghost use Rattle.c_meaning.specs.Visits.{site_list};
ghost use Rattle.lower_relation.specs.Operators.{Assigned, VisitedFork};
ghost use Rattle.lower_relation.specs.Paths.{MarksAll};
ghost use Rattle.lower_relation.specs.Room.{branch_visits, pair_visits};
ghost use Rattle.lower_nodes.specs.Made.{Made, MadeWays};
ghost use Rattle.lower_nodes.specs.Purposes.{condition_ways};
ghost use Rattle.lower_facts.specs.Facts.{facts_in, sites_in};

use crate::graph::Graph;
use cbi_base::Memory;
use flow::Node;
use lower_facts::TreeFacts;

/// The visits of these sites, one after another.
pub fn put_marks(graph: &mut Graph, sites: &[u32], next: u32) -> Result<u32, Memory>
    requires room { length graph.old + length sites.now ≤ node_limit }
    ensures made { IfOk result (λ i. Made (λ G. MarksAll G sites.now) graph.old graph.new i next) }
    ensures few { IfOk result (λ i. length graph.new ≤ length graph.old + length sites.now) }
{
    let mut first = next;
    for place in (0..sites.len()).rev() {
        first = graph.put(Node::Mark {
            site: sites[place],
            next: first,
        })?;
    }
    Ok(first)
}

/// The visit of the site, where there is one.
#[tactic(auto, using(crate::proofs::Visiting::marks_made))]
pub fn put_mark(graph: &mut Graph, site: Option<u32>, next: u32) -> Result<u32, Memory>
    requires room { length graph.old + length (site_list site) ≤ node_limit }
    ensures made { IfOk result (λ i. Made (λ G. MarksAll G (site_list site)) graph.old graph.new i next) }
    ensures few { IfOk result (λ i. length graph.new ≤ length graph.old + length (site_list site)) }
{
    match site {
        None => Ok(next),
        Some(site) => {
            let i = graph.put(Node::Mark { site, next })?;
            Ok(i)
        }
    }
}

/// The truth of a value on top, with the visit of the condition's site.
pub fn put_decided(
    graph: &mut Graph,
    facts: &TreeFacts,
    token: u32,
    yes: u32,
    no: u32,
) -> Result<u32, Memory>
    requires room { length graph.old + (1 + branch_visits (sites_in facts.now) token) ≤ node_limit }
    ensures made { IfOk result (λ i. MadeWays (λ G. VisitedFork G (facts_in facts.now) (sites_in facts.now) token) graph.old graph.new i
        (condition_ways yes no)) }
    ensures few { IfOk result (λ i. length graph.new ≤ length graph.old + (1 + branch_visits (sites_in facts.now) token)) }
{
    let fork = graph.put(Node::Fork { yes, no })?;
    let i = put_mark(graph, facts.branch_at(token), fork)?;
    Ok(i)
}

/// What is assigned at the token is stored, and then the sites there are visited.
pub fn put_assigned(
    graph: &mut Graph,
    facts: &TreeFacts,
    token: u32,
    next: u32,
) -> Result<u32, Memory>
    requires room { length graph.old + (1 + pair_visits (sites_in facts.now) token) ≤ node_limit }
    ensures made { IfOk result (λ i. Made (λ G. Assigned G (facts_in facts.now) (sites_in facts.now) token) graph.old graph.new i next) }
    ensures few { IfOk result (λ i. length graph.new ≤ length graph.old + (1 + pair_visits (sites_in facts.now) token)) }
{
    let marks = put_marks(graph, facts.pairs_at(token), next)?;
    let i = graph.put(Node::Store { next: marks })?;
    Ok(i)
}

/// What is assigned at the token behind this one is stored, and then the sites there are visited.
pub fn put_assigned_behind(
    graph: &mut Graph,
    facts: &TreeFacts,
    token: u32,
    next: u32,
) -> Result<u32, Memory>
    requires room { length graph.old + (1 + pair_visits (sites_in facts.now) (token + 1)) ≤ node_limit }
    ensures made { IfOk result (λ i. Made (λ G. Assigned G (facts_in facts.now) (sites_in facts.now) (token + 1)) graph.old graph.new i next) }
    ensures few { IfOk result (λ i. length graph.new ≤ length graph.old + (1 + pair_visits (sites_in facts.now) (token + 1))) }
{
    let marks = put_marks(graph, facts.pairs_behind(token), next)?;
    let stored = graph.put(Node::Store { next: marks })?;
    Ok(stored)
}
