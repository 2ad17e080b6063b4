ghost use Rattle.std.specs.Prelude.{◌≡◌, ◌++◌, ◌∷◌, [], IfOk, OnOk, option_map};
ghost use Rattle.c_syntax.specs.Plain.{plain_expr, plain_exprs, plain_initial, plain_links, plain_operators};
ghost use Rattle.c_meaning.specs.Literals.{strings_behind, strings_if, strings_in, strings_initial, strings_of_all, strings_of_links};
ghost use Rattle.lower_trees.specs.Joined.{joined_strings};

use c_syntax::{Expr, Initial, Link, PostfixOperator};
use cbi_base::{Memory, Seq};
use std::alloc::Global;
use std::marker::Model;

/// A string of a text: its first token, and its bytes, of all its parts.
#[derive(Drop)]
pub(crate) struct StringAt {
    token: u32,
    bytes: Seq<u8>,
}

impl Model for StringAt {
    ghost use Rattle.c_meaning.specs.Literals.{Literal};

    ghost Value = { Literal };

    ghost view = { λ s. record { token = s.token; bytes = s.bytes } };
}

impl StringAt {
    pub(crate) fn new(token: u32, bytes: Seq<u8>) -> StringAt
        ensures { result ≡ record { token = token; bytes = bytes } }
    {
        StringAt { token, bytes }
    }

    pub(crate) fn token(&self) -> u32
        ensures { result ≡ self.now.token }
    {
        self.token
    }

    pub(crate) fn bytes(&self) -> &[u8]
        ensures { result.now ≡ self.now.bytes }
    {
        self.bytes.as_slice()
    }
}

/// The bytes of adjacent strings, one after another.
fn joined(alloc: Global, parts: &[Seq<u8>]) -> Result<Seq<u8>, Memory>
    ensures { IfOk result (λ bytes. bytes ≡ joined_strings parts.now) }
{
    let mut bytes = Vec::new(alloc);
    for part in parts {
        bytes.extend_from_slice(part.as_slice())?;
    }
    Ok(Seq::from_vec(bytes))
}

/// One more string.
fn add_string(
    alloc: Global,
    strings: &mut Seq<StringAt>,
    token: u32,
    parts: &[Seq<u8>],
) -> Result<(), Memory>
    ensures { OnOk result (strings.new ≡ strings.old ++ record { token = token; bytes = joined_strings parts.now } ∷ []) }
{
    let bytes = joined(alloc, parts)?;
    strings.push(StringAt::new(token, bytes))?;
    Ok(())
}

/// Adds the strings of an expression.
#[cycle(strings_in)]
pub(crate) fn strings_in(
    alloc: Global,
    strings: &mut Seq<StringAt>,
    expr: &Expr,
) -> Result<(), Memory>
    ensures { OnOk result (strings.new ≡ strings.old ++ strings_in (plain_expr expr.now)) }
{
    match expr {
        Expr::Comma { operands, .. } => strings_of_all(alloc, strings, operands.as_slice()),
        Expr::Assign { target, value, .. } => {
            strings_in(alloc, strings, target)?;
            strings_in(alloc, strings, value)
        }
        Expr::Conditional {
            condition,
            first,
            second,
            ..
        } => {
            strings_in(alloc, strings, condition)?;
            strings_in(alloc, strings, first)?;
            strings_in(alloc, strings, second)
        }
        Expr::Chain { first, links, .. } => {
            strings_in(alloc, strings, first)?;
            strings_of_links(alloc, strings, links.as_slice())
        }
        Expr::Cast { operand, .. } | Expr::Prefix { operand, .. } => {
            strings_in(alloc, strings, operand)
        }
        Expr::Postfix { primary, operators } => {
            strings_in(alloc, strings, primary)?;
            strings_behind(alloc, strings, operators.as_slice())
        }
        Expr::Call { arguments, .. } => strings_of_all(alloc, strings, arguments.as_slice()),
        Expr::Strings { token, parts } => add_string(alloc, strings, *token, parts.as_slice()),
        Expr::Paren { inner, .. } => strings_in(alloc, strings, inner),
        Expr::SizeOfType { .. } | Expr::Name { .. } | Expr::Constant { .. } => Ok(()),
        Expr::Null { .. } | Expr::EndOfFile { .. } => Ok(()),
    }
}

/// Adds the strings of several expressions.
#[cycle(strings_in)]
pub(crate) fn strings_of_all(
    alloc: Global,
    strings: &mut Seq<StringAt>,
    exprs: &[Expr],
) -> Result<(), Memory>
    ensures { OnOk result (strings.new ≡ strings.old ++ strings_of_all (plain_exprs exprs.now)) }
{
    for expr in exprs {
        strings_in(alloc, strings, expr)?;
    }
    Ok(())
}

/// Adds the strings of a chain's operands behind the first.
#[cycle(strings_in)]
fn strings_of_links(
    alloc: Global,
    strings: &mut Seq<StringAt>,
    links: &[Link],
) -> Result<(), Memory>
    ensures { OnOk result (strings.new ≡ strings.old ++ strings_of_links (plain_links links.now)) }
{
    for link in links {
        strings_in(alloc, strings, &link.operand)?;
    }
    Ok(())
}

/// Adds the strings of the operators behind an operand.
#[cycle(strings_in)]
fn strings_behind(
    alloc: Global,
    strings: &mut Seq<StringAt>,
    operators: &[PostfixOperator],
) -> Result<(), Memory>
    ensures { OnOk result (strings.new ≡ strings.old ++ strings_behind (plain_operators operators.now)) }
{
    for operator in operators {
        if let PostfixOperator::Index { index, .. } = operator {
            strings_in(alloc, strings, index)?;
        }
    }
    Ok(())
}

/// Adds the strings of an expression, where there is one.
pub(crate) fn strings_if(
    alloc: Global,
    strings: &mut Seq<StringAt>,
    expr: &Option<Expr>,
) -> Result<(), Memory>
    ensures { OnOk result (strings.new ≡ strings.old ++ strings_if (option_map plain_expr expr.now)) }
{
    match expr {
        None => Ok(()),
        Some(expr) => strings_in(alloc, strings, expr),
    }
}

/// Adds the strings of an initialiser.
pub(crate) fn strings_initial(
    alloc: Global,
    strings: &mut Seq<StringAt>,
    initial: &Option<Initial>,
) -> Result<(), Memory>
    ensures { OnOk result (strings.new ≡ strings.old ++ strings_initial (option_map plain_initial initial.now)) }
{
    match initial {
        None => Ok(()),
        Some(Initial::Value { value }) => strings_in(alloc, strings, value),
        Some(Initial::Braced { items, .. }) => strings_of_all(alloc, strings, items.as_slice()),
    }
}
