ghost use Rattle.std.specs.Prelude.{◌≡◌, ◌<◌, map, option_map, true, false, not, OnOk};
ghost use Rattle.c_syntax.specs.Words.{most_bytes, plain_declaration, plain_entries, plain_expr, plain_for_start, plain_start, plain_statement};
ghost use Rattle.c_syntax.specs.StatementTree as s;
ghost use Rattle.c_types_walk.specs.StatementWalk.{counted_cells, is_condition_part, is_struct_part, returned_value_checked, object_type_checked, walk_closed};
ghost use Rattle.c_types_walk.specs.StatementWalk.{walk_condition};
ghost use Rattle.c_types_walk.specs.StatementWalk.{walk_declaration, walk_entries, walk_for_start, walk_given_up, walk_open, walk_optional, walk_start};
ghost use Rattle.c_types_walk.specs.StatementWalk.{walk_starts, walk_statement, walk_typed};
ghost use Rattle.c_types_walk.specs.Room.{declaration_needs, declaration_text, entries_need, entries_text, for_start_needs, for_start_text, part_text};
ghost use Rattle.c_types_walk.specs.Room.{start_needs, start_text, starts_need, starts_text, statement_needs, statement_text};
ghost use Rattle.c_types_rules.specs.declared.fault.FaultKind.TheVariants as fault;
ghost use Rattle.c_types_rules.specs.Operators.{is_scalar_value};
ghost use Rattle.c_types_expressions.specs.Words.{walk_expr, walk_whole, HasRoomLeft, HasRoom, expr_text, fault_if_wrong, IsWalked};

use crate::declarators::{declared_type, is_open};
use crate::initialisers::walk_initial;
use c_syntax::{Declaration, Entry, Expr, ForStart, Start, Statement};
use c_types_expressions::{
    Stop, Walk, add_variable, base_type, close_scope, next_number, open_scope, unless, walk_expr,
    walk_whole,
};
use c_types_rules::{
    FaultKind, Operand, Type, assignable, cells_of, is_object, is_scalar_value, is_struct, is_void,
};
use std::alloc::Global;

/// The most cells of all globals together.
const MOST_CELLS: u32 = 1_048_576;

/// Counts the cells of a global with those of the globals before it.
fn counted(walk: &mut Walk, global: bool, token: u32, cells: u32) -> Result<(), Stop>
    ensures walked { IsWalked (counted_cells global token cells walk.old) result walk.new }
    ensures left { OnOk result (HasRoomLeft 0 0 walk.old walk.new) }
{
    if !global {
        return Ok(());
    }
    match walk.global_cells.checked_add(cells) {
        None => Err(Stop::fault(FaultKind::Object, token)),
        Some(sum) => {
            if MOST_CELLS < sum {
                return Err(Stop::fault(FaultKind::Object, token));
            }
            walk.global_cells = sum;
            Ok(())
        }
    }
}

/// Whether a variable may have the type, and its cells fit.
fn sized(walk: &mut Walk, global: bool, token: u32, ctype: &Type) -> Result<(), Stop>
    ensures walked { IsWalked (object_type_checked global token ctype.now walk.old) result walk.new }
    ensures left { OnOk result (HasRoomLeft 0 0 walk.old walk.new) }
{
    if !is_object(walk.structs.as_slice(), ctype.shape()) {
        return Err(Stop::fault(FaultKind::Object, token));
    }
    let cells = cells_of(walk.structs.as_slice(), ctype.shape());
    counted(walk, global, token, cells)
}

/// A variable whose length its initialiser gives.
fn walk_open(
    alloc: Global,
    walk: &mut Walk,
    global: bool,
    start: &Start,
    ctype: &Type,
) -> Result<(), Stop>
    requires room { HasRoom (start_needs (plain_start start.now)) walk.old }
    requires text { start_text (plain_start start.now) < most_bytes }
    ensures walked { IsWalked (walk_open global (plain_start start.now) ctype.now walk.old) result walk.new }
    ensures left { OnOk result (HasRoomLeft (start_needs (plain_start start.now)) 0 walk.old walk.new) }
{
    let place = next_number(walk.variables.len());
    let declarator = &start.declarator;
    let kept = ctype.try_clone(alloc)?;
    add_variable(walk, global, declarator.name_token, &declarator.name, kept)?;
    let completed = walk_initial(alloc, walk, global, ctype, &start.initial)?;
    sized(walk, global, start.token, &completed)?;
    walk.declared_types.set(place, completed);
    Ok(())
}

/// Any other variable.
fn walk_closed(
    alloc: Global,
    walk: &mut Walk,
    global: bool,
    start: &Start,
    ctype: &Type,
) -> Result<(), Stop>
    requires room { HasRoom (start_needs (plain_start start.now)) walk.old }
    requires text { start_text (plain_start start.now) < most_bytes }
    ensures walked { IsWalked (walk_closed global (plain_start start.now) ctype.now walk.old) result walk.new }
    ensures left { OnOk result (HasRoomLeft (start_needs (plain_start start.now)) 0 walk.old walk.new) }
{
    sized(walk, global, start.token, ctype)?;
    let declarator = &start.declarator;
    let kept = ctype.try_clone(alloc)?;
    add_variable(walk, global, declarator.name_token, &declarator.name, kept)?;
    walk_initial(alloc, walk, global, ctype, &start.initial)?;
    Ok(())
}

/// A variable of the type.
#[tactic(auto, unfolding(crate::specs::StatementWalk::walk_typed))]
fn walk_typed(
    alloc: Global,
    walk: &mut Walk,
    global: bool,
    start: &Start,
    ctype: Option<Type>,
) -> Result<(), Stop>
    requires room { HasRoom (start_needs (plain_start start.now)) walk.old }
    requires text { start_text (plain_start start.now) < most_bytes }
    ensures walked { IsWalked (walk_typed global (plain_start start.now) ctype walk.old) result walk.new }
    ensures left { OnOk result (HasRoomLeft (start_needs (plain_start start.now)) 0 walk.old walk.new) }
{
    let Some(ctype) = ctype else {
        return Err(Stop::fault(FaultKind::Object, start.token));
    };
    if let None = &start.initial {
        return walk_closed(alloc, walk, global, start, &ctype);
    }
    if is_open(walk.structs.as_slice(), &ctype) {
        return walk_open(alloc, walk, global, start, &ctype);
    }
    walk_closed(alloc, walk, global, start, &ctype)
}

/// A variable, with its initialiser.
fn walk_start(
    alloc: Global,
    walk: &mut Walk,
    global: bool,
    base: &Type,
    start: &Start,
) -> Result<(), Stop>
    requires room { HasRoom (start_needs (plain_start start.now)) walk.old }
    requires text { start_text (plain_start start.now) < most_bytes }
    ensures walked { IsWalked (walk_start global base.now (plain_start start.now) walk.old) result walk.new }
    ensures left { OnOk result (HasRoomLeft (start_needs (plain_start start.now)) 0 walk.old walk.new) }
{
    if walk.names.is_taken(&start.declarator.name) {
        return Err(Stop::fault(FaultKind::Redeclared, start.token));
    }
    let ctype = declared_type(alloc, &start.declarator, base)?;
    walk_typed(alloc, walk, global, start, ctype)
}

/// Several variables of one base.
fn walk_starts(
    alloc: Global,
    walk: &mut Walk,
    global: bool,
    base: &Type,
    starts: &[Start],
) -> Result<(), Stop>
    requires room { HasRoom (starts_need (map plain_start starts.now)) walk.old }
    requires text { starts_text (map plain_start starts.now) < most_bytes }
    ensures walked { IsWalked (walk_starts global base.now (map plain_start starts.now) walk.old) result walk.new }
    ensures left { OnOk result (HasRoomLeft (starts_need (map plain_start starts.now)) 0 walk.old walk.new) }
{
    for start in starts {
        walk_start(alloc, walk, global, base, start)?;
    }
    Ok(())
}

/// A declaration of globals or of locals.
pub fn walk_declaration(
    alloc: Global,
    walk: &mut Walk,
    global: bool,
    declaration: &Declaration,
) -> Result<(), Stop>
    requires room { HasRoom (declaration_needs (plain_declaration declaration.now)) walk.old }
    requires text { declaration_text (plain_declaration declaration.now) < most_bytes }
    ensures walked { IsWalked (walk_declaration global (plain_declaration declaration.now) walk.old) result walk.new }
    ensures left { OnOk result (HasRoomLeft (declaration_needs (plain_declaration declaration.now)) 0 walk.old walk.new) }
{
    let base = base_type(walk, &declaration.base)?;
    walk_starts(alloc, walk, global, &base, declaration.starts.as_slice())
}

/// Whether a value may stand as a condition.
fn decides(x: Operand) -> bool
    ensures { result ≡ is_scalar_value x }
{
    is_scalar_value(&x)
}

/// Walks a condition behind what it decides.
fn walk_condition(alloc: Global, walk: &mut Walk, token: u32, condition: &Expr) -> Result<(), Stop>
    requires text { expr_text (plain_expr condition.now) < most_bytes }
    ensures walked { IsWalked (walk_condition token (plain_expr condition.now) walk.old) result walk.new }
    ensures left { OnOk result (HasRoomLeft 0 0 walk.old walk.new) }
{
    let fits = decides(walk_expr(alloc, walk, condition)?);
    unless(walk, !fits, FaultKind::Operands, token)
}

/// Walks an expression that stands as a statement. Its value is no struct.
fn walk_given_up(alloc: Global, walk: &mut Walk, token: u32, expr: &Expr) -> Result<(), Stop>
    requires text { expr_text (plain_expr expr.now) < most_bytes }
    ensures walked { IsWalked (walk_given_up token (plain_expr expr.now) walk.old) result walk.new }
    ensures left { OnOk result (HasRoomLeft 0 0 walk.old walk.new) }
{
    let x = walk_whole(alloc, walk, expr)?;
    unless(walk, is_struct(x.ctype.shape()), FaultKind::Operands, token)
}

/// A `return` with a value, of a function that gives this type.
fn returned(walk: &mut Walk, token: u32, gives: &Type, x: &Operand) -> Result<(), Stop>
    ensures walked { IsWalked (returned_value_checked token gives.now x.now walk.old) result walk.new }
    ensures left { OnOk result (HasRoomLeft 0 0 walk.old walk.new) }
{
    if is_void(gives.shape()) {
        return Err(Stop::fault(FaultKind::Jump, token));
    }
    let fits = assignable(gives.shape(), x);
    unless(walk, !fits, FaultKind::Operands, token)
}

/// Walks a `return`, with a value or without.
fn walk_return(
    alloc: Global,
    walk: &mut Walk,
    gives: &Type,
    token: u32,
    value: &Option<Expr>,
) -> Result<(), Stop>
    requires text { part_text (option_map plain_expr value.now) < most_bytes }
    ensures walked { IsWalked (walk_statement gives.now true (s.Return token (option_map plain_expr value.now)) walk.old) result walk.new }
    ensures left { OnOk result (HasRoomLeft 0 0 walk.old walk.new) }
{
    match value {
        None => unless(walk, !is_void(gives.shape()), FaultKind::Jump, token),
        Some(value) => {
            let x = walk_expr(alloc, walk, value)?;
            returned(walk, token, gives, &x)
        }
    }
}

/// Walks a `break` or a `continue`, which stands within a loop or not.
fn walk_jump(walk: &mut Walk, looping: bool, token: u32) -> Result<(), Stop>
    ensures walked { IsWalked (fault_if_wrong (not looping) fault.Jump token walk.old) result walk.new }
    ensures left { OnOk result (HasRoomLeft 0 0 walk.old walk.new) }
{
    unless(walk, !looping, FaultKind::Jump, token)
}

/// An expression that may be left out.
fn walk_optional(
    alloc: Global,
    walk: &mut Walk,
    expr: &Option<Expr>,
) -> Result<Option<Operand>, Stop>
    requires text { part_text (option_map plain_expr expr.now) < most_bytes }
    ensures walked { IsWalked (walk_optional (option_map plain_expr expr.now) walk.old) result walk.new }
    ensures left { OnOk result (HasRoomLeft 0 0 walk.old walk.new) }
{
    match expr {
        None => Ok(None),
        Some(expr) => {
            let x = walk_expr(alloc, walk, expr)?;
            Ok(Some(x))
        }
    }
}

/// What a `for` does first.
fn walk_for_start(alloc: Global, walk: &mut Walk, start: &ForStart) -> Result<Option<Operand>, Stop>
    requires room { HasRoom (for_start_needs (plain_for_start start.now)) walk.old }
    requires text { for_start_text (plain_for_start start.now) < most_bytes }
    ensures walked { IsWalked (walk_for_start (plain_for_start start.now) walk.old) result walk.new }
    ensures left { OnOk result (HasRoomLeft (for_start_needs (plain_for_start start.now)) 0 walk.old walk.new) }
{
    match start {
        ForStart::Declares { declaration } => {
            walk_declaration(alloc, walk, false, declaration)?;
            Ok(None)
        }
        ForStart::Computes { expr } => walk_optional(alloc, walk, expr),
    }
}

/// Whether a part of a `for` is a struct.
fn is_struct_part(part: Option<Operand>) -> bool
    ensures { result ≡ is_struct_part part }
{
    match part {
        None => false,
        Some(x) => is_struct(x.ctype.shape()),
    }
}

/// Whether the condition of a `for` is left out or a scalar.
fn is_condition_part(part: Option<Operand>) -> bool
    ensures { result ≡ is_condition_part part }
{
    match part {
        None => true,
        Some(x) => is_scalar_value(&x),
    }
}

/// Walks a statement of a function that gives this type, within a loop or not.
#[cycle(walk_statement)]
pub fn walk_statement(
    alloc: Global,
    walk: &mut Walk,
    gives: &Type,
    looping: bool,
    statement: &Statement,
) -> Result<(), Stop>
    requires room { HasRoom (statement_needs (plain_statement statement.now)) walk.old }
    requires text { statement_text (plain_statement statement.now) < most_bytes }
    ensures walked { IsWalked (walk_statement gives.now looping (plain_statement statement.now) walk.old) result walk.new }
    ensures left { OnOk result (HasRoomLeft (statement_needs (plain_statement statement.now)) 0 walk.old walk.new) }
{
    match statement {
        Statement::Block { entries, .. } => {
            open_scope(walk)?;
            walk_entries(alloc, walk, gives, looping, entries.as_slice())?;
            close_scope(walk);
            Ok(())
        }
        Statement::Empty { .. } => Ok(()),
        Statement::Expr { token, expr } => walk_given_up(alloc, walk, *token, expr),
        Statement::If {
            token,
            condition,
            first,
            second,
        } => {
            let fits = decides(walk_expr(alloc, walk, condition)?);
            walk_statement(alloc, walk, gives, looping, first)?;
            if let Some(second) = second {
                walk_statement(alloc, walk, gives, looping, second)?;
            }
            unless(walk, !fits, FaultKind::Operands, *token)
        }
        Statement::While {
            token,
            condition,
            body,
        } => {
            let fits = decides(walk_expr(alloc, walk, condition)?);
            walk_statement(alloc, walk, gives, true, body)?;
            unless(walk, !fits, FaultKind::Operands, *token)
        }
        Statement::Do {
            token,
            body,
            condition,
        } => {
            walk_statement(alloc, walk, gives, true, body)?;
            walk_condition(alloc, walk, *token, condition)
        }
        Statement::For {
            token,
            start,
            condition,
            step,
            body,
        } => {
            open_scope(walk)?;
            let starts = is_struct_part(walk_for_start(alloc, walk, start)?);
            let decides = is_condition_part(walk_optional(alloc, walk, condition)?);
            let steps = is_struct_part(walk_optional(alloc, walk, step)?);
            walk_statement(alloc, walk, gives, true, body)?;
            let wrong = starts || !decides || steps;
            unless(walk, wrong, FaultKind::Operands, *token)?;
            close_scope(walk);
            Ok(())
        }
        Statement::Return { token, value } => walk_return(alloc, walk, gives, *token, value),
        Statement::Break { token } | Statement::Continue { token } => {
            walk_jump(walk, looping, *token)
        }
    }
}

/// Walks the entries of a block or of a body.
#[cycle(walk_statement)]
pub fn walk_entries(
    alloc: Global,
    walk: &mut Walk,
    gives: &Type,
    looping: bool,
    entries: &[Entry],
) -> Result<(), Stop>
    requires room { HasRoom (entries_need (plain_entries entries.now)) walk.old }
    requires text { entries_text (plain_entries entries.now) < most_bytes }
    ensures walked { IsWalked (walk_entries gives.now looping (plain_entries entries.now) walk.old) result walk.new }
    ensures left { OnOk result (HasRoomLeft (entries_need (plain_entries entries.now)) 0 walk.old walk.new) }
{
    for entry in entries {
        match entry {
            Entry::Declaration { declaration } => walk_declaration(
                alloc,
                walk,
                false,
                declaration,
            )?,
            Entry::Statement { statement } => {
                walk_statement(alloc, walk, gives, looping, statement)?
            }
        }
    }
    Ok(())
}
