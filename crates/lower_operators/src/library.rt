ghost use Rattle.flow.specs.Limits.{node_limit};
ghost use Rattle.std.specs.Prelude.{◌≡◌, IfOk, length, ◌≤◌, ◌+◌};
ghost use Rattle.std.specs.Option.{option_copied};
ghost use Rattle.c_meaning.specs.Trees.{expression_count};
ghost use Rattle.c_syntax.specs.Plain.{plain_expr, plain_exprs};
ghost use Rattle.lower_relation.specs.Expressions.{number_of_text};
ghost use Rattle.lower_nodes.specs.Made.{Made};
ghost use Rattle.lower_operators.specs.Passing.{Acts, Formats, LibraryActs, Unfit, number_of_first, text_of_first, type_of_first, has_fitting_arguments};
ghost use Rattle.lower_operators.specs.Passing.{library_fits};
ghost use Rattle.lower_operators.specs.Passing.{library_node, library_types, arguments_after_first, arguments_passed, takes_one, types_passed};
ghost use Rattle.lower_operators.specs.Taken.{wanted_types};
ghost use Rattle.lower_facts.specs.Facts.{facts_in};

use crate::printing::{Wanted, conversion_count};
use c_meaning::{Called, ValueType, as_used};
use c_syntax::Expr;
use c_types_rules::Library;
use cbi_base::{Kind, Memory};
use flow::{Node, Text};
use lower_facts::TreeFacts;
use lower_nodes::Graph;

/// The type of the first argument.
fn type_of_first(facts: &TreeFacts, arguments: &[Expr]) -> Option<ValueType>
    ensures { result ≡ type_of_first (facts_in facts.now) (plain_exprs arguments.now) }
{
    match arguments.first() {
        None => None,
        Some(x) => facts.type_of(x),
    }
}

/// The number of the string that an expression is.
pub fn number_of_text(facts: &TreeFacts, x: &Expr) -> Option<u32>
    ensures { result ≡ number_of_text (facts_in facts.now) (plain_expr x.now) }
{
    match x {
        Expr::Strings { token, .. } => facts.text_at(*token),
        _ => None,
    }
}

/// The number of the string that the first argument is.
fn number_of_first(facts: &TreeFacts, arguments: &[Expr]) -> Option<u32>
    ensures { result ≡ number_of_first (facts_in facts.now) (plain_exprs arguments.now) }
{
    match arguments.first() {
        None => None,
        Some(x) => number_of_text(facts, x),
    }
}

/// The string that the first argument is.
fn text_of_first<'a>(facts: &'a TreeFacts<'_>, arguments: &[Expr]) -> Option<&'a Text>
    ensures { option_copied result ≡ text_of_first (facts_in facts.now) (plain_exprs arguments.now) }
{
    match number_of_first(facts, arguments) {
        None => None,
        Some(number) => facts.texts().get(number as usize),
    }
}

/// The arguments behind the first one.
fn others(arguments: &[Expr]) -> &[Expr]
    ensures { plain_exprs result.now ≡ arguments_after_first (plain_exprs arguments.now) }
{
    match arguments {
        [] => arguments,
        [_, rest @ ..] => rest,
    }
}

/// How many arguments there are.
#[tactic(auto, using(crate::proofs::Acting::counted))]
fn count(arguments: &[Expr]) -> usize
    ensures { result ≡ expression_count (plain_exprs arguments.now) }
{
    arguments.len()
}

/// The arguments that are passed as values: the format of `printf` is none of them.
pub fn passed(called: Called, arguments: &[Expr]) -> &[Expr]
    ensures { plain_exprs result.now ≡ arguments_passed called (plain_exprs arguments.now) }
{
    match called {
        Called::Library {
            function: Library::Printf,
        } => others(arguments),
        _ => arguments,
    }
}

/// The types that the arguments of a function of the library become.
fn library_wants<'a>(facts: &'a TreeFacts<'_>, function: Library, arguments: &[Expr]) -> Wanted<'a>
    ensures { wanted_types result ≡ library_types (facts_in facts.now) function (plain_exprs arguments.now) }
{
    match function {
        Library::Getchar | Library::Abort => Wanted::One { of: None },
        Library::Putchar | Library::Exit => Wanted::One {
            of: Some(ValueType::Number { kind: Kind::Int }),
        },
        Library::Malloc => Wanted::One {
            of: Some(ValueType::Number {
                kind: Kind::Unsigned,
            }),
        },
        Library::Puts => Wanted::One {
            of: Some(ValueType::Pointer { size: 1 }),
        },
        Library::Free => Wanted::One {
            of: Some(ValueType::Pointer { size: 0 }),
        },
        Library::Assert => Wanted::One {
            of: as_used(type_of_first(facts, arguments)),
        },
        Library::Printf => match text_of_first(facts, arguments) {
            None => Wanted::One { of: None },
            Some(format) => Wanted::Format {
                bytes: format.bytes.as_slice(),
            },
        },
    }
}

/// The types that the arguments of a call become.
pub fn wanted_by<'a>(facts: &'a TreeFacts<'_>, called: Called, arguments: &[Expr]) -> Wanted<'a>
    ensures { wanted_types result ≡ types_passed (facts_in facts.now) called (plain_exprs arguments.now) }
{
    match called {
        Called::Function { number } => match facts.signature(number) {
            None => Wanted::One { of: None },
            Some(signature) => Wanted::Params {
                types: signature.params(),
            },
        },
        Called::Library { function } => library_wants(facts, function, arguments),
        Called::Unknown => Wanted::One { of: None },
    }
}

/// Whether a function of the library has the arguments that it takes.
fn library_fits(facts: &TreeFacts, function: Library, arguments: &[Expr]) -> bool
    ensures { result ≡ library_fits (facts_in facts.now) function (plain_exprs arguments.now) }
{
    match function {
        Library::Getchar | Library::Abort => count(arguments) == 0,
        Library::Printf => match text_of_first(facts, arguments) {
            None => false,
            Some(format) => count(others(arguments)) == conversion_count(format.bytes.as_slice()),
        },
        Library::Putchar | Library::Puts | Library::Malloc => count(arguments) == 1,
        Library::Free | Library::Exit | Library::Assert => count(arguments) == 1,
    }
}

/// Whether a call has the arguments that it takes.
pub fn fits(facts: &TreeFacts, called: Called, arguments: &[Expr]) -> bool
    ensures { result ≡ has_fitting_arguments (facts_in facts.now) called (plain_exprs arguments.now) }
{
    match called {
        Called::Function { number } => match facts.signature(number) {
            None => false,
            Some(signature) => count(arguments) == signature.params().len(),
        },
        Called::Library { function } => library_fits(facts, function, arguments),
        Called::Unknown => false,
    }
}

/// `printf` by the string with this number.
#[tactic(auto, using(lower_nodes::proofs::Building::parts_made))]
fn put_format(
    graph: &mut Graph,
    number: Option<u32>,
    count: usize,
    next: u32,
) -> Result<u32, Memory>
    requires few { count ≤ node_limit }
    requires room { length graph.old + 1 ≤ node_limit }
    ensures made { IfOk result (λ i. Made (λ G. Formats G number count) graph.old graph.new i next) }
    ensures few { IfOk result (λ i. length graph.new ≤ length graph.old + 1) }
{
    let Some(text) = number else {
        return Ok(next);
    };
    let i = graph.put(Node::Format {
        text,
        count: count as u32,
        next,
    })?;
    Ok(i)
}

/// The node of a function of the library: `printf` has one for each format.
fn library_node(function: Library, next: u32) -> Option<Node>
    ensures { result ≡ library_node function next }
{
    match function {
        Library::Getchar => Some(Node::Get { next }),
        Library::Putchar => Some(Node::Put { next }),
        Library::Puts => Some(Node::Puts { next }),
        Library::Malloc => Some(Node::Alloc { next }),
        Library::Free => Some(Node::Free { next }),
        Library::Exit => Some(Node::Exit),
        Library::Abort => Some(Node::Abort),
        Library::Assert => Some(Node::Check { next }),
        Library::Printf => None,
    }
}

/// What a function of the library does with its arguments.
#[tactic(auto, using(crate::proofs::Acting::library_made))]
fn put_library(
    graph: &mut Graph,
    function: Library,
    number: Option<u32>,
    count: usize,
    next: u32,
) -> Result<u32, Memory>
    requires few { count ≤ node_limit }
    requires room { length graph.old + 1 ≤ node_limit }
    ensures made { IfOk result (λ i. Made (λ G. LibraryActs G function number count) graph.old graph.new i next) }
    ensures few { IfOk result (λ i. length graph.new ≤ length graph.old + 1) }
{
    match library_node(function, next) {
        None => {
            let i = put_format(graph, number, count, next)?;
            Ok(i)
        }
        Some(node) => {
            let i = graph.put(node)?;
            Ok(i)
        }
    }
}

/// What a call does behind its arguments.
#[tactic(auto, using(crate::proofs::Acting::acts_made))]
pub fn put_acts(
    graph: &mut Graph,
    facts: &TreeFacts,
    called: Called,
    arguments: &[Expr],
    next: u32,
) -> Result<u32, Memory>
    requires few { length arguments.now ≤ node_limit }
    requires room { length graph.old + 1 ≤ node_limit }
    ensures made { IfOk result (λ i. Made (λ G. Acts G (facts_in facts.now) called (plain_exprs arguments.now)) graph.old graph.new i next) }
    ensures few { IfOk result (λ i. length graph.new ≤ length graph.old + 1) }
{
    match called {
        Called::Function { number } => {
            let i = graph.put(Node::Call {
                function: number,
                next,
            })?;
            Ok(i)
        }
        Called::Library { function } => {
            let number = number_of_first(facts, arguments);
            let values = count(others(arguments));
            let i = put_library(graph, function, number, values, next)?;
            Ok(i)
        }
        Called::Unknown => Ok(next),
    }
}

/// Whether it is a function of the library that takes one argument.
fn takes_one(called: Called) -> bool
    ensures { result ≡ takes_one called }
{
    match called {
        Called::Library { function } => !matches!(
            function,
            Library::Getchar | Library::Abort | Library::Printf
        ),
        Called::Function { .. } | Called::Unknown => false,
    }
}

/// What is left of a call whose arguments aren't those that it takes: no run of a checked text comes there.
#[tactic(auto, using(lower_nodes::proofs::Building::parts_made))]
pub fn put_unfit(
    graph: &mut Graph,
    facts: &TreeFacts,
    called: Called,
    arguments: &[Expr],
    next: u32,
) -> Result<u32, Memory>
    requires few { length arguments.now ≤ node_limit }
    requires room { length graph.old + 1 ≤ node_limit }
    ensures made { IfOk result (λ i. Made (λ G. Unfit G (facts_in facts.now) called (plain_exprs arguments.now)) graph.old graph.new i next) }
    ensures few { IfOk result (λ i. length graph.new ≤ length graph.old + 1) }
{
    if takes_one(called) {
        let i = put_acts(graph, facts, called, arguments, next)?;
        return Ok(i);
    }
    Ok(next)
}
