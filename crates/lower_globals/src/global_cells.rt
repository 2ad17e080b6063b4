ghost use Rattle.std.specs.Prelude.{◌≡◌, ◌∷◌, [], Some, IfOk, map, option_map, slice_get};
ghost use Rattle.std.specs.Option.{option_copied};
ghost use Rattle.c_syntax.specs.Plain.{plain_expr, plain_exprs, plain_initial};
ghost use Rattle.cbi_base.specs.Scalars.{char_of};
ghost use Rattle.c_meaning.specs.Words.{constant_value, constant_values, given_to, spelled_cells, text_of_string};
ghost use Rattle.lower_facts.specs.Facts.{facts_in};
ghost use Rattle.lower_globals.specs.Starts.{AreStarts, IsGlobalStart, IsStart};

use crate::constants::constant;
use crate::zeros::one;
use c_meaning::ValueType;
use c_syntax::{Expr, Initial};
use c_values::convert;
use cbi_base::{Kind, Memory, Scalar, Seq};
use flow::Text;
use lower_facts::TreeFacts;
use std::alloc::Global;

/// A byte as a `char`.
#[tactic(auto, unfolding(cbi_base::specs::Scalars::converted_number))]
fn char_of(byte: u8) -> Scalar
    ensures { result ≡ char_of byte }
{
    let number = Scalar::Number {
        kind: Kind::Int,
        value: byte as i64,
    };
    match convert(Kind::Char, number) {
        Ok(value) => value,
        Err(_) => unreachable!(),
    }
}

/// The bytes as `char`s.
fn chars(alloc: Global, bytes: &[u8]) -> Result<Seq<Scalar>, Memory>
    ensures { IfOk result (λ cells. cells ≡ map char_of bytes.now) }
{
    let mut cells = Vec::new(alloc);
    for byte in bytes {
        cells.push(char_of(*byte))?;
    }
    Ok(Seq::from_vec(cells))
}

/// The constants, as values of the wanted type; None where one gives nothing.
fn constants(
    alloc: Global,
    facts: &TreeFacts<'_>,
    of: Option<ValueType>,
    items: &[Expr],
) -> Result<Option<Seq<Scalar>>, Memory>
    requires { AreStarts (plain_exprs items.now) }
    ensures { IfOk result (λ cells. cells ≡ constant_values (facts_in facts.now) of (plain_exprs items.now)) }
{
    let mut cells = Vec::new(alloc);
    for item in items {
        let Some(value) = constant(facts, of, item) else {
            return Ok(None);
        };
        cells.push(value)?;
    }
    Ok(Some(Seq::from_vec(cells)))
}

/// The text with this number.
fn text_numbered(texts: &[Text], number: u32) -> Option<&Text>
    ensures { option_copied result ≡ slice_get texts.now number }
{
    texts.get(number as usize)
}

/// The string that an expression is.
fn text_of<'a>(facts: &'a TreeFacts<'_>, expr: &Expr) -> Option<&'a Text>
    ensures { option_copied result ≡ text_of_string (facts_in facts.now) (plain_expr expr.now) }
{
    match expr {
        Expr::Strings { token, .. } => match facts.text_at(*token) {
            None => None,
            Some(number) => text_numbered(facts.texts(), number),
        },
        Expr::Comma { .. } | Expr::Assign { .. } | Expr::Conditional { .. } => None,
        Expr::Chain { .. } | Expr::Cast { .. } | Expr::Prefix { .. } => None,
        Expr::SizeOfType { .. } | Expr::Postfix { .. } | Expr::Name { .. } => None,
        Expr::Call { .. } | Expr::Constant { .. } | Expr::Paren { .. } => None,
        Expr::Null { .. } | Expr::EndOfFile { .. } => None,
    }
}

/// The value of one constant.
fn one_constant(
    alloc: Global,
    facts: &TreeFacts<'_>,
    of: ValueType,
    value: &Expr,
) -> Result<Option<Seq<Scalar>>, Memory>
    requires { IsStart (plain_expr value.now) }
    ensures { IfOk result (λ cells. cells ≡ option_map (λ v. v ∷ []) (constant_value (facts_in facts.now) (Some of) (plain_expr value.now))) }
{
    match constant(facts, Some(of), value) {
        None => Ok(None),
        Some(value) => {
            let cells = one(alloc, value)?;
            Ok(Some(cells))
        }
    }
}

/// The bytes of a string as `char`s.
fn spelled_cells(
    alloc: Global,
    facts: &TreeFacts<'_>,
    value: &Expr,
) -> Result<Option<Seq<Scalar>>, Memory>
    ensures { IfOk result (λ cells. cells ≡ spelled_cells (text_of_string (facts_in facts.now) (plain_expr value.now))) }
{
    match text_of(facts, value) {
        None => Ok(None),
        Some(text) => {
            let cells = chars(alloc, text.bytes.as_slice())?;
            Ok(Some(cells))
        }
    }
}

/// The cells that an initialiser gives to a global of the type, from its first one on.
pub(crate) fn given_to(
    alloc: Global,
    facts: &TreeFacts<'_>,
    of: ValueType,
    element: Option<ValueType>,
    initial: &Option<Initial>,
) -> Result<Option<Seq<Scalar>>, Memory>
    requires { IsGlobalStart (option_map plain_initial initial.now) }
    ensures { IfOk result (λ cells. cells ≡ given_to (facts_in facts.now) of element (option_map plain_initial initial.now)) }
{
    match initial {
        None => Ok(Some(Seq::new(alloc))),
        Some(Initial::Braced { items, .. }) => constants(alloc, facts, element, items.as_slice()),
        Some(Initial::Value { value }) => match of {
            ValueType::Array { .. } => spelled_cells(alloc, facts, value),
            ValueType::Void
            | ValueType::Number { .. }
            | ValueType::Pointer { .. }
            | ValueType::Struct => one_constant(alloc, facts, of, value),
        },
    }
}
