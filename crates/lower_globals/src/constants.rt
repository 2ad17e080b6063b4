ghost use Rattle.std.specs.Prelude.{◌≡◌, IfSome};
ghost use Rattle.cbi_base.specs.Scalars.{IsInRange, applied_to_one};
ghost use Rattle.cbi_base.specs.declared.operators.Unary.TheVariants.{Neg};
ghost use Rattle.c_syntax.specs.declared.expr.PrefixOperator.TheVariants.{Minus};
ghost use Rattle.c_syntax.specs.Words.{Prefix, plain_expr};
ghost use Rattle.c_meaning.specs.Words.{conversion_result, constant_value};
ghost use Rattle.lower_globals.specs.Cells.{given_scalar, negated_constant};
ghost use Rattle.lower_globals.specs.Starts.{IsStart};
ghost use Rattle.lower_facts.specs.Facts.{facts_in};

use c_meaning::{Conversion, ValueType, conversion_of};
use c_syntax::{Expr, PrefixOperator};
use c_values::{apply_unary, convert};
use cbi_base::{Scalar, Unary};
use lower_facts::TreeFacts;
use lower_trees::is_null_as;

/// What a value gives where one of another type is wanted, if it gives anything.
fn wanted(conversion: Conversion, value: Scalar) -> Option<Scalar>
    requires { IsInRange value }
    ensures value { result ≡ given_scalar (conversion_result conversion value) }
    ensures in_range { IfSome result IsInRange }
{
    match conversion {
        Conversion::Keep => Some(value),
        Conversion::Misfit => None,
        Conversion::To { kind } => match convert(kind, value) {
            Ok(converted) => Some(converted),
            Err(_) => None,
        },
    }
}

/// The negative of a value, if it has one.
fn negated(value: Scalar) -> Option<Scalar>
    requires { IsInRange value }
    ensures value { result ≡ given_scalar (applied_to_one Neg value) }
    ensures in_range { IfSome result IsInRange }
{
    match apply_unary(Unary::Neg, value) {
        Ok(negative) => Some(negative),
        Err(_) => None,
    }
}

/// The negative of a value that is converted before and after.
fn negative(first: Conversion, second: Conversion, value: Scalar) -> Option<Scalar>
    requires { IsInRange value }
    ensures { result ≡ negated_constant first second value }
{
    match wanted(first, value) {
        None => None,
        Some(operand) => match negated(operand) {
            None => None,
            Some(opposite) => wanted(second, opposite),
        },
    }
}

/// A constant behind a `-`, as a value of the wanted type.
fn minus(facts: &TreeFacts<'_>, of: Option<ValueType>, token: u32, operand: &Expr) -> Option<Scalar>
    requires { IsStart (Prefix token Minus (plain_expr operand.now)) }
    ensures { result ≡ constant_value (facts_in facts.now) of (Prefix token Minus (plain_expr operand.now)) }
{
    let Expr::Constant {
        token: inner,
        kind,
        value,
    } = operand
    else {
        unreachable!()
    };
    let own = facts.type_at(token);
    let first = conversion_of(facts.type_at(*inner), own);
    let number = Scalar::Number {
        kind: *kind,
        value: *value,
    };
    negative(first, conversion_of(own, of), number)
}

/// What a constant that initialises a global gives to one of the type, if it gives anything.
pub(crate) fn constant(facts: &TreeFacts<'_>, of: Option<ValueType>, expr: &Expr) -> Option<Scalar>
    requires { IsStart (plain_expr expr.now) }
    ensures { result ≡ constant_value (facts_in facts.now) of (plain_expr expr.now) }
{
    if is_null_as(of, expr) {
        return Some(Scalar::Null);
    }
    let conversion = conversion_of(facts.type_of(expr), of);
    match expr {
        Expr::Null { .. } => wanted(conversion, Scalar::Null),
        Expr::Constant { kind, value, .. } => {
            let number = Scalar::Number {
                kind: *kind,
                value: *value,
            };
            wanted(conversion, number)
        }
        Expr::Strings { token, .. } => match facts.text_place(*token) {
            None => None,
            Some(place) => wanted(conversion, place),
        },
        Expr::Prefix {
            token,
            operator: PrefixOperator::Minus,
            operand,
        } => minus(facts, of, *token, operand),
        Expr::Prefix { .. } | Expr::Comma { .. } | Expr::Assign { .. } => unreachable!(),
        Expr::Conditional { .. } | Expr::Chain { .. } | Expr::Cast { .. } => unreachable!(),
        Expr::SizeOfType { .. } | Expr::Postfix { .. } | Expr::Name { .. } => unreachable!(),
        Expr::Call { .. } | Expr::Paren { .. } | Expr::EndOfFile { .. } => unreachable!(),
    }
}
