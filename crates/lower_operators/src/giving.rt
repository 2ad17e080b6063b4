ghost use Rattle.flow.specs.Limits.{node_limit};
ghost use Rattle.std.specs.Prelude.{◌≡◌, IfOk, length, ◌≤◌, ◌+◌};
ghost use Rattle.lower_relation.specs.Room.{return_visits};
ghost use Rattle.lower_nodes.specs.Made.{MadeFor};
ghost use Rattle.lower_operators.specs.Giving.{GivenTakes, giving_of, is_refused, library_gives};
ghost use Rattle.lower_facts.specs.Facts.{facts_in, sites_in};

use c_meaning::Called;
use c_types_rules::Library;
use cbi_base::Memory;
use lower_facts::TreeFacts;
use lower_nodes::{Graph, Purpose, put_mark, put_stuck, put_taken};
use lower_trees::has_value;

/// What a call gives.
#[derive(Clone, Copy, Debug)]
pub enum Giving {
    /// A value.
    Value,
    /// A value, at which a site may look.
    Returned,
    /// None.
    Nothing,
}

/// What a function of the library gives.
fn library_gives(function: Library) -> Giving
    ensures { result ≡ library_gives function }
{
    match function {
        Library::Getchar | Library::Malloc => Giving::Returned,
        Library::Putchar | Library::Puts => Giving::Value,
        Library::Free | Library::Exit | Library::Abort => Giving::Nothing,
        Library::Assert | Library::Printf => Giving::Nothing,
    }
}

/// What a call gives, by what it calls.
pub fn giving_of(facts: &TreeFacts, called: Called) -> Giving
    ensures { result ≡ giving_of (facts_in facts.now) called }
{
    match called {
        Called::Function { number } => match facts.signature(number) {
            None => Giving::Value,
            Some(signature) => {
                if has_value(signature.gives()) {
                    Giving::Returned
                } else {
                    Giving::Nothing
                }
            }
        },
        Called::Library { function } => library_gives(function),
        Called::Unknown => Giving::Value,
    }
}

/// Whether a value is wanted where there is none.
pub fn is_refused(giving: Giving, purpose: Purpose) -> bool
    ensures { result ≡ is_refused giving purpose }
{
    match (giving, purpose) {
        (Giving::Nothing, Purpose::Value { .. }) | (Giving::Nothing, Purpose::Truth { .. }) => true,
        _ => false,
    }
}

/// What becomes of what a call gives.
#[tactic(auto, using(crate::proofs::Handing::gives_made))]
pub fn put_given(
    graph: &mut Graph,
    facts: &TreeFacts,
    token: u32,
    giving: Giving,
    purpose: Purpose,
) -> Result<u32, Memory>
    requires room { length graph.old + (2 + return_visits (sites_in facts.now) token) ≤ node_limit }
    ensures made { IfOk result (λ i. MadeFor (λ G. GivenTakes G (facts_in facts.now) (sites_in facts.now) token giving) graph.old graph.new i purpose) }
    ensures few { IfOk result (λ i. length graph.new ≤ length graph.old + (2 + return_visits (sites_in facts.now) token)) }
{
    match giving {
        Giving::Value => {
            let i = put_taken(graph, purpose)?;
            Ok(i)
        }
        Giving::Returned => {
            let after = put_taken(graph, purpose)?;
            let i = put_mark(graph, facts.return_at(token), after)?;
            Ok(i)
        }
        Giving::Nothing => match purpose {
            Purpose::Effect { next } => Ok(next),
            _ => {
                let i = put_stuck(graph, 0)?;
                Ok(i)
            }
        },
    }
}
