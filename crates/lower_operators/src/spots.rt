ghost use Rattle.flow.specs.Limits.{node_limit};
ghost use Rattle.std.specs.Prelude.{◌≡◌, ◌<◌, ◌+◌, ◌||◌, IfOk, drop, length, ◌≤◌};
ghost use Rattle.c_syntax.specs.ExprTree as e;
ghost use Rattle.c_syntax.specs.Plain.{plain_operators, plain_postfix};
ghost use Rattle.lower_relation.specs.Expressions.{has_more};
ghost use Rattle.lower_relation.specs.Operators.{OperandValue, SteppedAs};
ghost use Rattle.lower_relation.specs.Paths.{PathOrStuck};
ghost use Rattle.lower_relation.specs.Room.{pair_visits};
ghost use Rattle.lower_nodes.specs.Made.{Made};
ghost use Rattle.lower_operators.specs.Spots.{place_after, place_before, token_after, type_behind};
ghost use Rattle.lower_facts.specs.Facts.{facts_in, sites_in};

use c_meaning::ValueType;
use c_syntax::PostfixOperator;
use cbi_base::Memory;
use lower_facts::TreeFacts;
use lower_nodes::{Graph, put_load, put_stepped_as, put_stuck};

/// What stands before a postfix operator, as a value.
#[tactic(auto, using(lower_nodes::proofs::Building::parts_made))]
pub fn put_settled(
    graph: &mut Graph,
    known: bool,
    of: Option<ValueType>,
    next: u32,
) -> Result<u32, Memory>
    requires room { length graph.old + 2 ≤ node_limit }
    ensures made { IfOk result (λ i. Made (λ G. OperandValue G known of) graph.old graph.new i next) }
    ensures few { IfOk result (λ i. length graph.new ≤ length graph.old + 2) }
{
    if known {
        let i = put_load(graph, of, next)?;
        return Ok(i);
    }
    Ok(next)
}

/// `++` and `--` behind a place.
#[tactic(auto, using(lower_nodes::proofs::Building::parts_made))]
pub fn put_stepped_place(
    graph: &mut Graph,
    facts: &TreeFacts,
    taken: bool,
    known: bool,
    up: bool,
    token: u32,
    of: Option<ValueType>,
    next: u32,
) -> Result<u32, Memory>
    requires room { length graph.old + (16 + pair_visits (sites_in facts.now) token) ≤ node_limit }
    ensures made { IfOk result (λ i. Made (λ G. PathOrStuck G known (SteppedAs G (facts_in facts.now) (sites_in facts.now) taken up token of))
        graph.old graph.new i next) }
    ensures few { IfOk result (λ i. length graph.new ≤ length graph.old + (16 + pair_visits (sites_in facts.now) token)) }
{
    if known {
        let i = put_stepped_as(graph, facts, taken, up, token, of, next)?;
        return Ok(i);
    }
    let i = put_stuck(graph, next)?;
    Ok(i)
}

/// Whether the operator leads to a place.
fn leads_to_place(operator: &PostfixOperator) -> bool
    ensures { result ≡ place_after (plain_postfix operator.now e.no_postfix) }
{
    match operator {
        PostfixOperator::Index { .. }
        | PostfixOperator::Member { .. }
        | PostfixOperator::Arrow { .. } => true,
        PostfixOperator::Increment { .. } | PostfixOperator::Decrement { .. } => false,
    }
}

/// The token of the operator.
fn operator_token(operator: &PostfixOperator) -> u32
    ensures { result ≡ token_after (plain_postfix operator.now e.no_postfix) }
{
    match operator {
        PostfixOperator::Index { token, .. }
        | PostfixOperator::Member { token, .. }
        | PostfixOperator::Arrow { token, .. }
        | PostfixOperator::Increment { token }
        | PostfixOperator::Decrement { token } => *token,
    }
}

/// Whether what stands before the operator with this index is a place.
pub fn place_before(known: bool, operators: &[PostfixOperator], place: usize) -> bool
    requires { place < length operators.now }
    ensures { result ≡ place_before known (plain_operators operators.now) place }
{
    if place == 0 {
        return known;
    }
    let before = &operators[place - 1];
    leads_to_place(before)
}

/// The type of what stands before the operator with this index.
pub fn type_behind(
    facts: &TreeFacts,
    of: Option<ValueType>,
    operators: &[PostfixOperator],
    place: usize,
) -> Option<ValueType>
    requires { place < length operators.now }
    ensures { result ≡ type_behind (facts_in facts.now) of (plain_operators operators.now) place }
{
    if place == 0 {
        return of;
    }
    let before = &operators[place - 1];
    let token = operator_token(before);
    facts.type_at(token)
}

/// Whether something takes the value of the operator with this index: one behind it, or what takes the value of the last one.
pub fn is_used(taken: bool, operators: &[PostfixOperator], place: usize) -> bool
    requires { place < length operators.now }
    ensures { result ≡ (taken || has_more (plain_operators (drop (place + 1) operators.now))) }
{
    if taken {
        return true;
    }
    let after = place + 1;
    let count = operators.len();
    if after < count {
        return true;
    }
    false
}
