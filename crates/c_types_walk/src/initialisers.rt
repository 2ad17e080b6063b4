ghost use Rattle.std.specs.Prelude.{◌≡◌, ◌<◌, ◌≤◌, IfOk, OnOk, option_map, length};
ghost use Rattle.c_syntax.specs.Words.{most_bytes, most_tokens, plain_expr, plain_exprs, plain_initial};
ghost use Rattle.c_types_rules.specs.Plain.{plain_type};
ghost use Rattle.c_types_walk.specs.Initialisers.{all_initialise, cells_of_string, type_or_fault, type_if_initialised, is_scalar_initialiser, is_char};
ghost use Rattle.c_types_walk.specs.Initialisers.{is_char_array, is_constant};
ghost use Rattle.c_types_walk.specs.Initialisers.{is_number, known_length, length_of, listed_type, type_by_string, takes_items, type_by_expression};
ghost use Rattle.c_types_walk.specs.Initialisers.{walk_initial};
ghost use Rattle.c_types_walk.specs.Initialisers.{with_length};
ghost use Rattle.c_types_walk.specs.Room.{initial_needs, initial_text};
ghost use Rattle.c_types_expressions.specs.Words.{HasRoomLeft, expr_text, IsWalked};

use c_syntax::{Expr, Initial, PrefixOperator};
use c_types_expressions::{Stop, Walk, string_cells, walk_expr, walk_exprs};
use c_types_rules::{CType, FaultKind, Operand, Type, assignable, is_scalar};
use cbi_base::Memory;
use std::alloc::Global;

/// Whether it is a constant token.
fn is_number(expr: &Expr) -> bool
    ensures { result ≡ is_number (plain_expr expr.now) }
{
    match expr {
        Expr::Constant { .. } => true,
        Expr::Comma { .. } | Expr::Assign { .. } | Expr::Conditional { .. } => false,
        Expr::Chain { .. } | Expr::Cast { .. } | Expr::Prefix { .. } => false,
        Expr::SizeOfType { .. } | Expr::Postfix { .. } | Expr::Name { .. } => false,
        Expr::Call { .. } | Expr::Strings { .. } | Expr::Paren { .. } => false,
        Expr::Null { .. } | Expr::EndOfFile { .. } => false,
    }
}

/// Whether the expression may initialise a global: a constant, a `-` before one, NULL, or a string.
fn is_constant(expr: &Expr) -> bool
    ensures { result ≡ is_constant (plain_expr expr.now) }
{
    match expr {
        Expr::Constant { .. } | Expr::Strings { .. } | Expr::Null { .. } => true,
        Expr::Prefix {
            operator,
            operand,
            ..
        } => matches!(operator, PrefixOperator::Minus) && is_number(operand),
        Expr::Comma { .. } | Expr::Assign { .. } | Expr::Conditional { .. } => false,
        Expr::Chain { .. } | Expr::Cast { .. } | Expr::SizeOfType { .. } => false,
        Expr::Postfix { .. } | Expr::Name { .. } | Expr::Call { .. } => false,
        Expr::Paren { .. } | Expr::EndOfFile { .. } => false,
    }
}

/// Whether the expression may initialise an object of the scalar type.
fn initialises(global: bool, ctype: &CType, value: &Expr, x: &Operand) -> bool
    ensures { result ≡ is_scalar_initialiser global (plain_type ctype.now) (plain_expr value.now) x.now }
{
    is_scalar(ctype) && assignable(ctype, x) && (!global || is_constant(value))
}

/// Whether each item may initialise an element of the scalar type.
fn all_initialise(global: bool, ctype: &CType, items: &[Expr], xs: &[Operand]) -> bool
    ensures { result ≡ all_initialise global (plain_type ctype.now) (plain_exprs items.now) xs.now }
{
    let mut items = items;
    let mut xs = xs;
    while let [value, more_items @ ..] = items {
        let [x, more_xs @ ..] = xs else {
            return false;
        };
        if !initialises(global, ctype, value, x) {
            return false;
        }
        items = more_items;
        xs = more_xs;
    }
    true
}

/// An array of this length, or of a length that isn't known yet, takes so many items.
fn takes_items(length: u32, count: usize) -> bool
    ensures { result ≡ takes_items length count }
{
    length == 0 || count <= length as usize
}

/// The length that an initialiser of so many items gives an array.
fn known_length(length: u32, given: u32) -> u32
    ensures { result ≡ known_length length given }
{
    if length == 0 { given } else { length }
}

/// The type that a braced list completes; None where the list doesn't fit.
fn listed(
    alloc: Global,
    global: bool,
    ctype: &Type,
    items: &[Expr],
    xs: &[Operand],
) -> Result<Option<Type>, Memory>
    requires { length xs.now ≤ most_tokens }
    ensures { IfOk result (λ t. t ≡ listed_type global (plain_exprs items.now) xs.now ctype.now) }
{
    let count = xs.len() as u32;
    match ctype.shape() {
        CType::Array { of, length } => {
            if !is_scalar(of) || !takes_items(*length, xs.len()) {
                return Ok(None);
            }
            if !all_initialise(global, of, items, xs) {
                return Ok(None);
            }
            Ok(Some(array_like(alloc, ctype, known_length(*length, count))?))
        }
        CType::Void | CType::Char | CType::Int | CType::Unsigned => Ok(None),
        CType::Pointer { .. } | CType::Struct { .. } => Ok(None),
    }
}

/// The array type with another length. Any other type stays.
fn array_like(alloc: Global, ctype: &Type, length: u32) -> Result<Type, Memory>
    ensures { IfOk result (λ t. t ≡ with_length length ctype.now) }
{
    let copy = ctype.try_clone(alloc)?;
    match copy.into_shape() {
        CType::Void => Ok(Type::new(CType::Void)),
        CType::Char => Ok(Type::new(CType::Char)),
        CType::Int => Ok(Type::new(CType::Int)),
        CType::Unsigned => Ok(Type::new(CType::Unsigned)),
        CType::Pointer { to } => Ok(Type::new(CType::Pointer { to })),
        CType::Array { of, .. } => Ok(Type::new(CType::Array { of, length })),
        CType::Struct { tag } => Ok(Type::new(CType::Struct { tag })),
    }
}

/// Whether it is an array of `char`.
fn is_text(ctype: &CType) -> bool
    ensures { result ≡ is_char_array (plain_type ctype.now) }
{
    match ctype {
        CType::Array { of, .. } => is_char(of),
        CType::Void | CType::Char | CType::Int | CType::Unsigned => false,
        CType::Pointer { .. } | CType::Struct { .. } => false,
    }
}

/// Whether it is `char`.
fn is_char(ctype: &CType) -> bool
    ensures { result ≡ is_char (plain_type ctype.now) }
{
    match ctype {
        CType::Char => true,
        CType::Void | CType::Int | CType::Unsigned | CType::Pointer { .. } => false,
        CType::Array { .. } | CType::Struct { .. } => false,
    }
}

/// The length of an array. Any other type has none.
fn length_of(ctype: &CType) -> u32
    ensures { result ≡ length_of (plain_type ctype.now) }
{
    match ctype {
        CType::Array { length, .. } => *length,
        CType::Void | CType::Char | CType::Int | CType::Unsigned => 0,
        CType::Pointer { .. } | CType::Struct { .. } => 0,
    }
}

/// The type that a string of so many cells completes; None where the string doesn't fit.
fn spelled(alloc: Global, cells: u32, ctype: &Type) -> Result<Option<Type>, Memory>
    ensures { IfOk result (λ t. t ≡ type_by_string cells ctype.now) }
{
    let length = length_of(ctype.shape());
    if length == 0 || cells as u64 <= length as u64 + 1 {
        return Ok(Some(array_like(alloc, ctype, known_length(length, cells))?));
    }
    Ok(None)
}

/// The type, if the expression may initialise an object of it.
fn expressed(
    alloc: Global,
    global: bool,
    ctype: &Type,
    value: &Expr,
    x: &Operand,
) -> Result<Option<Type>, Memory>
    ensures { IfOk result (λ t. t ≡ type_if_initialised global ctype.now (plain_expr value.now) x.now) }
{
    if !initialises(global, ctype.shape(), value, x) {
        return Ok(None);
    }
    Ok(Some(ctype.try_clone(alloc)?))
}

/// How many cells the expression has as a string, if it is one.
fn cells_of_string(expr: &Expr) -> Option<u32>
    requires { expr_text (plain_expr expr.now) < most_bytes }
    ensures { result ≡ cells_of_string (plain_expr expr.now) }
{
    match expr {
        Expr::Strings { parts, .. } => Some(string_cells(parts.as_slice())),
        Expr::Comma { .. } | Expr::Assign { .. } | Expr::Conditional { .. } => None,
        Expr::Chain { .. } | Expr::Cast { .. } | Expr::Prefix { .. } => None,
        Expr::SizeOfType { .. } | Expr::Postfix { .. } | Expr::Name { .. } => None,
        Expr::Call { .. } | Expr::Constant { .. } | Expr::Paren { .. } => None,
        Expr::Null { .. } | Expr::EndOfFile { .. } => None,
    }
}

/// The type that an expression completes; None where it doesn't fit.
fn valued(
    alloc: Global,
    global: bool,
    ctype: &Type,
    value: &Expr,
    x: &Operand,
) -> Result<Option<Type>, Memory>
    requires { expr_text (plain_expr value.now) < most_bytes }
    ensures { IfOk result (λ t. t ≡ type_by_expression global ctype.now (plain_expr value.now) x.now (cells_of_string (plain_expr value.now))) }
{
    match cells_of_string(value) {
        None => expressed(alloc, global, ctype, value, x),
        Some(cells) => {
            if is_text(ctype.shape()) {
                return spelled(alloc, cells, ctype);
            }
            expressed(alloc, global, ctype, value, x)
        }
    }
}

/// The completed type, or a fault at the initialiser's first token.
fn completes(walk: &mut Walk, index: u32, ctype: Option<Type>) -> Result<Type, Stop>
    ensures walked { IsWalked (type_or_fault index ctype walk.old) result walk.new }
    ensures left { OnOk result (HasRoomLeft 0 0 walk.old walk.new) }
{
    match ctype {
        None => Err(Stop::fault(FaultKind::Initialiser, index)),
        Some(ctype) => Ok(ctype),
    }
}

/// Walks an initialiser of an object of the type, and answers the type as it completes it.
pub fn walk_initial(
    alloc: Global,
    walk: &mut Walk,
    global: bool,
    ctype: &Type,
    initial: &Option<Initial>,
) -> Result<Type, Stop>
    requires few { initial_needs (option_map plain_initial initial.now) ≤ most_tokens }
    requires text { initial_text (option_map plain_initial initial.now) < most_bytes }
    ensures walked { IsWalked (walk_initial global ctype.now (option_map plain_initial initial.now) walk.old) result walk.new }
    ensures left { OnOk result (HasRoomLeft 0 0 walk.old walk.new) }
{
    match initial {
        None => Ok(ctype.try_clone(alloc)?),
        Some(Initial::Value { value }) => {
            let x = walk_expr(alloc, walk, value)?;
            let completed = valued(alloc, global, ctype, value, &x)?;
            completes(walk, value.first_token(), completed)
        }
        Some(Initial::Braced { token, items, .. }) => {
            let xs = walk_exprs(alloc, walk, items.as_slice())?;
            let completed = listed(alloc, global, ctype, items.as_slice(), xs.as_slice())?;
            completes(walk, *token, completed)
        }
    }
}
