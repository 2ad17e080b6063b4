ghost use Rattle.flow.specs.Limits.{node_limit};
ghost use Rattle.std.specs.Prelude.{IfOk, length, ◌≤◌, ◌+◌};
ghost use Rattle.c_syntax.specs.Plain.{plain_expr};
ghost use Rattle.lower_relation.specs.Expressions.{Condition};
ghost use Rattle.lower_relation.specs.Room.{branch_visits, expr_room};
ghost use Rattle.lower_nodes.specs.Made.{MadeWays};
ghost use Rattle.lower_nodes.specs.Purposes.{condition_ways};
ghost use Rattle.lower_facts.specs.Facts.{facts_in, sites_in};

use crate::expressions::{emit, emit_value};
use c_syntax::Expr;
use cbi_base::Memory;
use flow::Node;
use lower_facts::TreeFacts;
use lower_nodes::{Graph, Purpose};

/// A condition, with the visit of the site at the token. With a site its value is on top at the mark, and a fork follows at once.
#[cycle(emission)]
#[tactic(auto, using(crate::proofs::Deciding::conditions_made))]
pub fn emit_condition(
    graph: &mut Graph,
    facts: &TreeFacts,
    token: u32,
    x: &Expr,
    yes: u32,
    no: u32,
) -> Result<u32, Memory>
    requires room { length graph.old + (1 + branch_visits (sites_in facts.now) token + expr_room (sites_in facts.now) (plain_expr x.now)) ≤ node_limit }
    ensures made { IfOk result (λ i. MadeWays (λ G. Condition G (facts_in facts.now) (sites_in facts.now) token (plain_expr x.now))
        graph.old graph.new i (condition_ways yes no)) }
    ensures few { IfOk result (λ i. length graph.new ≤ length graph.old
        + (1 + branch_visits (sites_in facts.now) token + expr_room (sites_in facts.now) (plain_expr x.now))) }
{
    match facts.branch_at(token) {
        None => {
            let i = emit(graph, facts, x, Purpose::Truth { yes, no })?;
            Ok(i)
        }
        Some(site) => {
            let fork = graph.put(Node::Fork { yes, no })?;
            let mark = graph.put(Node::Mark { site, next: fork })?;
            let i = emit_value(graph, facts, x, mark)?;
            Ok(i)
        }
    }
}
