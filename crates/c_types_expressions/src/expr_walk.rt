ghost use Rattle.std.specs.Prelude.{◌≡◌, ◌<◌, ◌++◌, ◌∷◌, [], true, IfOk, Ok, OnOk, length, slice_get, sum_by};
ghost use Rattle.c_syntax.specs.Words.{most_bytes, plain_expr, plain_exprs, plain_links, plain_operators};
ghost use Rattle.c_syntax.specs.ExprTree as e;
ghost use Rattle.c_types_rules.specs.Words.{null_of, string_of, value_type, cast_to, typed_sizeof, typed_conditional, member_behind, member_of, typed_comma};
ghost use Rattle.c_types_rules.specs.Words.{Void};
ghost use Rattle.c_types_expressions.specs.ExprWalk.{typed_assignment, base_type, called_name, concatenated_strings, format_of, is_printf, operand_noted};
ghost use Rattle.c_types_expressions.specs.ExprWalk.{named_operand, of_function};
ghost use Rattle.c_types_expressions.specs.ExprWalk.{of_variable, typed_prefix_operation, selected_member, selected_as, string_cells, tagged_type, walk_expr};
ghost use Rattle.c_types_expressions.specs.ExprWalk.{walk_exprs};
ghost use Rattle.c_types_expressions.specs.ExprWalk.{walk_links, walk_postfix, walk_whole, with_stars};
ghost use Rattle.c_types_expressions.specs.Names.{meaning_of};
ghost use Rattle.c_types_expressions.specs.Room.{HasRoomLeft, expr_text, exprs_text, items_in, links_text, postfix_text};
ghost use Rattle.c_types_expressions.specs.Walked.{IsWalked};

use crate::names::Meaning;
use crate::operators::{assigning, binary_of, chained, compound_of, prefixed};
use crate::walk::{Stop, Walk, note_type};
use c_syntax::{Base, Expr, Link, PostfixOperator, PrefixOperator};
use c_types_rules::{
    CType, FaultKind, Library, Looked, Operand, Type, called, cast_to, chosen, constant_of,
    enclosed, indexed, library_called, measured, member_behind, member_of, null_of, place_of,
    pointer_to, printed, sequenced, stepped, string_of, value_of,
};
use cbi_base::{Binary, Memory, Name, Seq};
use std::alloc::Global;

/// Notes the type of the construct at the token.
fn noted(alloc: Global, walk: &mut Walk, token: u32, x: Operand) -> Result<Operand, Stop>
    ensures { IsWalked (operand_noted token (Ok x) walk.old) result walk.new }
{
    match x.ctype.try_clone(alloc) {
        Ok(ctype) => {
            note_type(walk, token, ctype);
            Ok(x)
        }
        Err(_) => {
            drop(x);
            Err(Stop::Memory)
        }
    }
}

/// Notes the type of the construct at the token, or meets its fault.
fn looked(alloc: Global, walk: &mut Walk, token: u32, answer: Looked) -> Result<Operand, Stop>
    ensures { IsWalked (operand_noted token answer walk.old) result walk.new }
{
    match answer {
        Ok(x) => noted(alloc, walk, token, x),
        Err(kind) => Err(Stop::fault(kind, token)),
    }
}

/// The struct that a tag means.
fn tagged(walk: &mut Walk, token: u32, meaning: Option<Meaning>) -> Result<Type, Stop>
    ensures walked { IsWalked (tagged_type token meaning walk.old) result walk.new }
    ensures left { OnOk result (HasRoomLeft 0 0 walk.old walk.new) }
{
    match meaning {
        Some(Meaning::Struct { index }) => Ok(Type::new(CType::Struct { tag: index })),
        _ => Err(Stop::fault(FaultKind::Unknown, token)),
    }
}

/// The base of a type.
pub fn base_type(walk: &mut Walk, base: &Base) -> Result<Type, Stop>
    ensures walked { IsWalked (base_type base.now walk.old) result walk.new }
    ensures left { OnOk result (HasRoomLeft 0 0 walk.old walk.new) }
{
    match base {
        Base::Void { .. } => Ok(Type::new(CType::Void)),
        Base::Char { .. } => Ok(Type::new(CType::Char)),
        Base::Int { .. } => Ok(Type::new(CType::Int)),
        Base::Unsigned { .. } => Ok(Type::new(CType::Unsigned)),
        Base::Struct { token, tag } => {
            let meaning = walk.tags.find(tag);
            tagged(walk, *token, meaning)
        }
    }
}

/// The type with so many stars.
pub fn with_stars(alloc: Global, stars: u32, base: &Type) -> Result<Type, Memory>
    ensures { IfOk result (λ t. t ≡ with_stars stars base.now) }
{
    let mut ctype = base.try_clone(alloc)?;
    let mut left = stars;
    while left > 0 {
        ctype = pointer_to(alloc, ctype)?;
        left -= 1;
    }
    Ok(ctype)
}

/// A variable that is named.
fn of_variable(alloc: Global, walk: &mut Walk, token: u32, index: u32) -> Result<Operand, Stop>
    ensures { IsWalked (of_variable token index (slice_get walk.old.declared_types index) walk.old) result walk.new }
{
    let Some(ctype) = walk.declared_types.as_slice().get(index as usize) else {
        return Err(Stop::fault(FaultKind::Unknown, token));
    };
    let ctype = ctype.try_clone(alloc)?;
    walk.variables_at.set(token, Some(index));
    looked(alloc, walk, token, Ok(place_of(ctype.into_shape())))
}

/// A name that isn't called, by what it means.
fn named(
    alloc: Global,
    walk: &mut Walk,
    token: u32,
    meaning: Option<Meaning>,
) -> Result<Operand, Stop>
    ensures { IsWalked (named_operand token meaning walk.old) result walk.new }
{
    match meaning {
        None => Err(Stop::fault(FaultKind::Unknown, token)),
        Some(Meaning::Variable { index }) => of_variable(alloc, walk, token, index),
        Some(_) => Err(Stop::fault(FaultKind::Operands, token)),
    }
}

/// A call of a function of the text.
fn of_function(
    alloc: Global,
    walk: &mut Walk,
    token: u32,
    index: u32,
    arguments: &[Operand],
) -> Result<Operand, Stop>
    ensures { IsWalked (of_function token index (slice_get walk.old.functions index) arguments.now walk.old) result walk.new }
{
    let Some(function) = walk.functions.as_slice().get(index as usize) else {
        return Err(Stop::fault(FaultKind::Unknown, token));
    };
    let answer = called(alloc, &function.ctype, arguments)?;
    walk.functions_at.set(token, Some(index));
    looked(alloc, walk, token, answer)
}

/// A call, by what the name means.
fn called_as(
    alloc: Global,
    walk: &mut Walk,
    token: u32,
    meaning: Option<Meaning>,
    arguments: &[Operand],
) -> Result<Operand, Stop>
    ensures { IsWalked (called_name token meaning arguments.now walk.old) result walk.new }
{
    match meaning {
        None => Err(Stop::fault(FaultKind::Unknown, token)),
        Some(Meaning::Function { index }) => of_function(alloc, walk, token, index, arguments),
        Some(Meaning::Library { function }) => {
            let answer = library_called(alloc, function, arguments)?;
            looked(alloc, walk, token, answer)
        }
        Some(_) => Err(Stop::fault(FaultKind::Operands, token)),
    }
}

/// How many cells a string has: its bytes, and the closing zero.
pub fn string_cells(parts: &[Seq<u8>]) -> u32
    requires { sum_by length parts.now < most_bytes }
    ensures { result ≡ string_cells parts.now }
{
    let mut bytes: u32 = 0;
    for part in parts {
        bytes += part.len() as u32;
    }
    bytes + 1
}

/// Notes the member that a `.` or `->` at the token names.
fn selected_as(
    alloc: Global,
    walk: &mut Walk,
    token: u32,
    place: bool,
    ctype: Type,
    offset: u32,
) -> Result<Operand, Stop>
    ensures { IsWalked (selected_as token place ctype offset walk.old) result walk.new }
{
    walk.offsets_at.set(token, Some(offset));
    let null = false;
    looked(alloc, walk, token, Ok(Operand { ctype, place, null }))
}

/// A member behind `.`.
fn member_at(
    alloc: Global,
    walk: &mut Walk,
    token: u32,
    name: &Name,
    left: Operand,
) -> Result<Operand, Stop>
    ensures { IsWalked (selected_member token left.place (member_of walk.old.structs name.now left.ctype) walk.old) result walk.new }
{
    let place = left.place;
    let found = member_of(walk.structs.as_slice(), name, left.ctype.shape());
    drop(left);
    match found {
        Err(kind) => Err(Stop::fault(kind, token)),
        Ok(member) => {
            let offset = member.offset;
            let ctype = member.ctype.try_clone(alloc)?;
            selected_as(alloc, walk, token, place, ctype, offset)
        }
    }
}

/// A member behind `->`.
fn member_behind_at(
    alloc: Global,
    walk: &mut Walk,
    token: u32,
    name: &Name,
    left: Operand,
) -> Result<Operand, Stop>
    ensures { IsWalked (selected_member token true (member_behind walk.old.structs name.now (value_type left)) walk.old) result walk.new }
{
    let found = member_behind(walk.structs.as_slice(), name, &left.ctype);
    drop(left);
    match found {
        Err(kind) => Err(Stop::fault(kind, token)),
        Ok(member) => {
            let offset = member.offset;
            let ctype = member.ctype.try_clone(alloc)?;
            selected_as(alloc, walk, token, true, ctype, offset)
        }
    }
}

/// A comma, behind its operands.
fn sequenced_at(
    alloc: Global,
    walk: &mut Walk,
    token: u32,
    operands: Seq<Operand>,
) -> Result<Operand, Stop>
    ensures { IsWalked (operand_noted token (typed_comma Void operands) walk.old) result walk.new }
{
    let answer = sequenced(alloc, operands.as_slice())?;
    looked(alloc, walk, token, answer)
}

/// An assignment, behind its two operands.
fn assigned_at(
    alloc: Global,
    walk: &mut Walk,
    token: u32,
    op: Option<Binary>,
    target: Operand,
    value: Operand,
) -> Result<Operand, Stop>
    ensures { IsWalked (operand_noted token (typed_assignment walk.old.structs op target value) walk.old) result walk.new }
{
    let answer = assigning(alloc, walk.structs.as_slice(), op, target, value)?;
    looked(alloc, walk, token, answer)
}

/// A choice, behind its three operands.
fn chosen_at(
    alloc: Global,
    walk: &mut Walk,
    token: u32,
    condition: Operand,
    first: Operand,
    second: Operand,
) -> Result<Operand, Stop>
    ensures { IsWalked (operand_noted token (typed_conditional condition first second) walk.old) result walk.new }
{
    let answer = chosen(&condition, first, second);
    drop(condition);
    looked(alloc, walk, token, answer)
}

/// A cast, behind its operand.
fn cast_at(
    alloc: Global,
    walk: &mut Walk,
    token: u32,
    stars: u32,
    base: Type,
    operand: Operand,
) -> Result<Operand, Stop>
    ensures { IsWalked (operand_noted token (cast_to (with_stars stars base) operand) walk.old) result walk.new }
{
    let ctype = with_stars(alloc, stars, &base);
    drop(base);
    match ctype {
        Ok(ctype) => {
            let answer = cast_to(ctype, &operand);
            drop(operand);
            looked(alloc, walk, token, answer)
        }
        Err(_) => {
            drop(operand);
            Err(Stop::Memory)
        }
    }
}

/// An operator behind its operand.
fn prefixed_at(
    alloc: Global,
    walk: &mut Walk,
    token: u32,
    operator: PrefixOperator,
    operand: Operand,
) -> Result<Operand, Stop>
    ensures { IsWalked (operand_noted token (typed_prefix_operation walk.old.structs operator operand) walk.old) result walk.new }
{
    let answer = prefixed(alloc, walk.structs.as_slice(), operator, operand)?;
    looked(alloc, walk, token, answer)
}

/// The size of a type.
fn measured_at(
    alloc: Global,
    walk: &mut Walk,
    token: u32,
    stars: u32,
    base: Type,
) -> Result<Operand, Stop>
    ensures { IsWalked (operand_noted token (typed_sizeof walk.old.structs (with_stars stars base)) walk.old) result walk.new }
{
    let ctype = with_stars(alloc, stars, &base);
    drop(base);
    let ctype = ctype?;
    let answer = measured(walk.structs.as_slice(), &ctype);
    drop(ctype);
    looked(alloc, walk, token, answer)
}

/// A call, behind its arguments.
fn called_at(
    alloc: Global,
    walk: &mut Walk,
    token: u32,
    name: &Name,
    arguments: Seq<Operand>,
) -> Result<Operand, Stop>
    ensures { IsWalked (called_name token (meaning_of name.now walk.old.names) arguments walk.old) result walk.new }
{
    let meaning = walk.names.meaning_of(name);
    called_as(alloc, walk, token, meaning, arguments.as_slice())
}

/// Adjacent strings.
fn string_at(alloc: Global, walk: &mut Walk, token: u32, parts: &[Seq<u8>]) -> Result<Operand, Stop>
    requires { sum_by length parts.now < most_bytes }
    ensures { IsWalked (operand_noted token (Ok (string_of (string_cells parts.now))) walk.old) result walk.new }
{
    let string = string_of(alloc, string_cells(parts))?;
    looked(alloc, walk, token, Ok(string))
}

/// The null pointer.
fn null_at(alloc: Global, walk: &mut Walk, token: u32) -> Result<Operand, Stop>
    ensures { IsWalked (operand_noted token (Ok null_of) walk.old) result walk.new }
{
    let null = null_of(alloc)?;
    looked(alloc, walk, token, Ok(null))
}

/// The operand that an expression is, behind the walk through it.
#[cycle(walk_expr)]
fn operand_of(alloc: Global, walk: &mut Walk, expr: &Expr) -> Result<Operand, Stop>
    requires { expr_text (plain_expr expr.now) < most_bytes }
    ensures { IsWalked (walk_expr (plain_expr expr.now) walk.old) result walk.new }
{
    match expr {
        Expr::Comma { token, operands } => {
            let operands = operands_of(alloc, walk, operands.as_slice())?;
            sequenced_at(alloc, walk, *token, operands)
        }
        Expr::Assign {
            token,
            sign,
            target,
            value,
        } => {
            let target = operand_of(alloc, walk, target)?;
            match operand_of(alloc, walk, value) {
                Ok(value) => assigned_at(alloc, walk, *token, compound_of(*sign), target, value),
                Err(stop) => {
                    drop(target);
                    Err(stop)
                }
            }
        }
        Expr::Conditional {
            token,
            condition,
            first,
            second,
        } => {
            let condition = operand_of(alloc, walk, condition)?;
            match operand_of(alloc, walk, first) {
                Ok(first) => match operand_of(alloc, walk, second) {
                    Ok(second) => chosen_at(alloc, walk, *token, condition, first, second),
                    Err(stop) => {
                        drop((condition, first));
                        Err(stop)
                    }
                },
                Err(stop) => {
                    drop(condition);
                    Err(stop)
                }
            }
        }
        Expr::Chain { first, links, .. } => {
            let first = operand_of(alloc, walk, first)?;
            walk_links(alloc, walk, first, links.as_slice())
        }
        Expr::Cast {
            token,
            base,
            stars,
            operand,
        } => {
            let base = base_type(walk, base)?;
            match operand_of(alloc, walk, operand) {
                Ok(operand) => cast_at(alloc, walk, *token, *stars, base, operand),
                Err(stop) => {
                    drop(base);
                    Err(stop)
                }
            }
        }
        Expr::Prefix {
            token,
            operator,
            operand,
        } => {
            let operand = operand_of(alloc, walk, operand)?;
            prefixed_at(alloc, walk, *token, *operator, operand)
        }
        Expr::SizeOfType { token, base, stars } => {
            let base = base_type(walk, base)?;
            measured_at(alloc, walk, *token, *stars, base)
        }
        Expr::Postfix { primary, operators } => {
            let primary = operand_of(alloc, walk, primary)?;
            walk_postfix(alloc, walk, primary, operators.as_slice())
        }
        Expr::Name { token, name } => {
            let meaning = walk.names.meaning_of(name);
            named(alloc, walk, *token, meaning)
        }
        Expr::Call {
            token,
            name,
            arguments,
        } => {
            let arguments = operands_of(alloc, walk, arguments.as_slice())?;
            called_at(alloc, walk, *token, name, arguments)
        }
        Expr::Constant { token, kind, value } => {
            looked(alloc, walk, *token, Ok(constant_of(*kind, *value)))
        }
        Expr::Strings { token, parts } => string_at(alloc, walk, *token, parts.as_slice()),
        Expr::Paren { token, inner } => {
            let inner = operand_of(alloc, walk, inner)?;
            looked(alloc, walk, *token, Ok(enclosed(inner)))
        }
        Expr::Null { token } => null_at(alloc, walk, *token),
        Expr::EndOfFile { token } => looked(alloc, walk, *token, Ok(value_of(CType::Int))),
    }
}

/// The operands that several expressions are.
#[cycle(walk_expr)]
fn operands_of(alloc: Global, walk: &mut Walk, exprs: &[Expr]) -> Result<Seq<Operand>, Stop>
    requires { exprs_text (plain_exprs exprs.now) < most_bytes }
    ensures walked { IsWalked (walk_exprs (plain_exprs exprs.now) [] walk.old) result walk.new }
    ensures many { IfOk result (λ xs. length xs ≡ items_in (plain_exprs exprs.now)) }
{
    let mut done = Seq::new(alloc);
    for expr in exprs {
        done.push(operand_of(alloc, walk, expr)?)?;
    }
    Ok(done)
}

/// Walks the operators of a chain behind its first operand.
#[cycle(walk_expr)]
fn walk_links(
    alloc: Global,
    walk: &mut Walk,
    first: Operand,
    links: &[Link],
) -> Result<Operand, Stop>
    requires { links_text (plain_links links.now) < most_bytes }
    ensures { IsWalked (walk_links (plain_links links.now) first walk.old) result walk.new }
{
    let mut left = first;
    for link in links {
        match operand_of(alloc, walk, &link.operand) {
            Ok(right) => {
                let answer = chained(walk.structs.as_slice(), binary_of(link.sign), left, right);
                left = looked(alloc, walk, link.token, answer)?;
            }
            Err(stop) => {
                drop(left);
                return Err(stop);
            }
        }
    }
    Ok(left)
}

/// Walks the operators behind an operand.
#[cycle(walk_expr)]
fn walk_postfix(
    alloc: Global,
    walk: &mut Walk,
    first: Operand,
    operators: &[PostfixOperator],
) -> Result<Operand, Stop>
    requires { postfix_text (plain_operators operators.now) < most_bytes }
    ensures { IsWalked (walk_postfix (plain_operators operators.now) first walk.old) result walk.new }
{
    let mut left = first;
    for operator in operators {
        left = match operator {
            PostfixOperator::Index { token, index } => match operand_of(alloc, walk, index) {
                Ok(index) => {
                    let answer = indexed(walk.structs.as_slice(), left, index);
                    looked(alloc, walk, *token, answer)?
                }
                Err(stop) => {
                    drop(left);
                    return Err(stop);
                }
            },
            PostfixOperator::Member { token, name } => {
                member_at(alloc, walk, *token, name, left)?
            }
            PostfixOperator::Arrow { token, name } => {
                member_behind_at(alloc, walk, *token, name, left)?
            }
            PostfixOperator::Increment { token } | PostfixOperator::Decrement { token } => {
                let answer = stepped(walk.structs.as_slice(), left);
                looked(alloc, walk, *token, answer)?
            }
        };
    }
    Ok(left)
}

/// Walks an expression. It declares nothing.
pub fn walk_expr(alloc: Global, walk: &mut Walk, expr: &Expr) -> Result<Operand, Stop>
    requires { expr_text (plain_expr expr.now) < most_bytes }
    ensures walked { IsWalked (walk_expr (plain_expr expr.now) walk.old) result walk.new }
    ensures left { OnOk result (HasRoomLeft 0 0 walk.old walk.new) }
{
    operand_of(alloc, walk, expr)
}

/// Walks several expressions. They declare nothing, and each is one operand.
pub fn walk_exprs(alloc: Global, walk: &mut Walk, exprs: &[Expr]) -> Result<Seq<Operand>, Stop>
    requires { exprs_text (plain_exprs exprs.now) < most_bytes }
    ensures walked { IsWalked (walk_exprs (plain_exprs exprs.now) [] walk.old) result walk.new }
    ensures many { IfOk result (λ xs. length xs ≡ items_in (plain_exprs exprs.now)) }
    ensures left { OnOk result (HasRoomLeft 0 0 walk.old walk.new) }
{
    operands_of(alloc, walk, exprs)
}

/// The bytes of adjacent strings, one after another.
fn flat(alloc: Global, parts: &[Seq<u8>]) -> Result<Vec<u8>, Memory>
    ensures { IfOk result (λ bytes. bytes.items ≡ concatenated_strings parts.now) }
{
    let mut bytes = Vec::new(alloc);
    for part in parts {
        bytes.extend_from_slice(part.as_slice())?;
    }
    Ok(bytes)
}

/// A whole `printf`: its first argument is its format.
fn formatted(alloc: Global, arguments: &[Expr], operands: &[Operand]) -> Result<Looked, Memory>
    ensures { IfOk result (λ r. r ≡ format_of (plain_exprs arguments.now) operands.now) }
{
    match (arguments.first(), operands) {
        (Some(Expr::Strings { parts, .. }), [_, operands @ ..]) => {
            let format = flat(alloc, parts.as_slice())?;
            Ok(printed(format.as_slice(), operands))
        }
        _ => Ok(Err(FaultKind::Arguments)),
    }
}

/// Whether a name means `printf`.
fn is_printf(meaning: Option<Meaning>) -> bool
    ensures { result ≡ is_printf meaning }
{
    match meaning {
        Some(Meaning::Library { function }) => matches!(function, Library::Printf),
        _ => false,
    }
}

/// Walks the whole expression of a statement, which may be a `printf`.
pub fn walk_whole(alloc: Global, walk: &mut Walk, expr: &Expr) -> Result<Operand, Stop>
    requires { expr_text (plain_expr expr.now) < most_bytes }
    ensures walked { IsWalked (walk_whole (plain_expr expr.now) walk.old) result walk.new }
    ensures left { OnOk result (HasRoomLeft 0 0 walk.old walk.new) }
{
    match expr {
        Expr::Call {
            token,
            name,
            arguments,
        } => walk_call(alloc, walk, *token, name, arguments.as_slice()),
        _ => walk_expr(alloc, walk, expr),
    }
}

/// Walks a call that is the whole expression of a statement.
fn walk_call(
    alloc: Global,
    walk: &mut Walk,
    token: u32,
    name: &Name,
    arguments: &[Expr],
) -> Result<Operand, Stop>
    requires { exprs_text (plain_exprs arguments.now) < most_bytes }
    ensures { IsWalked (walk_whole (e.Call token name.now (plain_exprs arguments.now)) walk.old) result walk.new }
{
    let operands = operands_of(alloc, walk, arguments)?;
    let meaning = walk.names.meaning_of(name);
    if is_printf(meaning) {
        let answer = formatted(alloc, arguments, operands.as_slice())?;
        return looked(alloc, walk, token, answer);
    }
    called_as(alloc, walk, token, meaning, operands.as_slice())
}
