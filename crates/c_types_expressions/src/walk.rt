ghost use Rattle.std.specs.Prelude.{◌≡◌, ◌≤◌, IfOk, OnOk};
ghost use Rattle.c_syntax.specs.Limits.{most_tokens};
ghost use Rattle.c_types_expressions.specs.Beginning.{empty_walk};
ghost use Rattle.c_types_expressions.specs.declared.walk.Stop.TheVariants as stop;
ghost use Rattle.c_types_expressions.specs.Room.{HasRoomLeft, HasRoom};
ghost use Rattle.c_types_expressions.specs.Walked.{Fine, IsWalked, scope_closed, counted_in, next_variable, scope_opened, fault_if_wrong, with_type};
ghost use Rattle.c_types_expressions.specs.Walked.{with_variable};

use crate::names::{Meaning, Names, ScopeEntry};
use crate::table::{Table, blank};
use c_types_rules::{FaultKind, FunctionType, StructType, Type};
use cbi_base::{Memory, Name, Seq};
use std::alloc::Global;

/// A variable: a global by its number, or a local by its number in its function, parameters first.
#[derive(Clone, Copy)]
pub enum Variable {
    Global { index: u32 },
    Local { index: u32 },
}

/// A declared variable. Its scope begins behind the token of its name.
#[derive(Drop)]
pub struct VariableEntry {
    pub name: Name,
    pub variable: Variable,
    pub from: u32,
}

/// A declared function.
#[derive(Drop)]
pub struct FunctionEntry {
    pub name: Name,
    pub ctype: FunctionType,
}

/// A defined function: its place among the declared functions, the place of its first local among the declared variables,
/// and how many locals it has.
#[derive(Clone, Copy)]
pub struct Definition {
    pub function: u32,
    pub first: u32,
    pub count: u32,
}

/// What the walk knows at a point: the names in scope, what was declared so far, and what was noted by token.
#[derive(Drop)]
pub struct Walk {
    pub names: Names,
    pub tags: Names,
    pub structs: Seq<StructType>,
    pub variables: Seq<VariableEntry>,
    /// The type of each variable, an array as such.
    pub declared_types: Table<Type>,
    /// The last token of each variable's scope, where that doesn't go to the end of the text.
    pub ends: Table<Option<u32>>,
    pub functions: Seq<FunctionEntry>,
    /// The number of each function's definition.
    pub defined_as: Table<Option<u32>>,
    pub definitions: Seq<Definition>,
    /// How many globals there are, and how many locals of the present function.
    pub globals: u32,
    pub locals: u32,
    pub global_cells: u32,
    /// The latest token of an expression.
    pub latest: u32,
    pub types: Table<Option<Type>>,
    pub variables_at: Table<Option<u32>>,
    pub offsets_at: Table<Option<u32>>,
    pub functions_at: Table<Option<u32>>,
}

/// Why the walk doesn't go on: a fault, or want of memory.
#[derive(Clone, Copy)]
pub enum Stop {
    Fault { kind: FaultKind, index: u32 },
    Memory,
}

impl Stop {
    /// The fault at the token.
    pub fn fault(kind: FaultKind, index: u32) -> Stop
        ensures { result ≡ stop.Fault kind index }
    {
        Stop::Fault { kind, index }
    }
}

impl From<Memory> for Stop {
    ghost use Rattle.c_types_expressions.specs.declared.walk.Stop.TheVariants as stop;

    ghost from_gives = { λ _ e. e ≡ stop.Memory };

    fn from(_e: Memory) -> Stop {
        Stop::Memory
    }
}

/// A parameter: its name, the token of that, and its type.
#[derive(Drop)]
pub struct Parameter {
    pub token: u32,
    pub name: Option<Name>,
    pub ctype: Type,
}

impl Walk {
    /// What is known before a text of so many tokens.
    pub fn new(alloc: Global, count: usize) -> Result<Walk, Memory>
        ensures { IfOk result (λ w. w ≡ empty_walk count) }
    {
        Ok(Walk {
            types: blank(alloc, count)?,
            variables_at: blank(alloc, count)?,
            offsets_at: blank(alloc, count)?,
            functions_at: blank(alloc, count)?,
            names: Names::new(alloc),
            tags: Names::new(alloc),
            structs: Seq::new(alloc),
            variables: Seq::new(alloc),
            declared_types: Table::new(alloc),
            ends: Table::new(alloc),
            functions: Seq::new(alloc),
            defined_as: Table::new(alloc),
            definitions: Seq::new(alloc),
            globals: 0,
            locals: 0,
            global_cells: 0,
            latest: 0,
        })
    }
}

/// The number of items so far, as the number of the next one.
pub fn next_number(count: usize) -> u32
    requires { count ≤ most_tokens }
    ensures { result ≡ count }
{
    count as u32
}

/// A fault at the token where something is wrong.
pub fn unless(walk: &mut Walk, wrong: bool, kind: FaultKind, index: u32) -> Result<(), Stop>
    ensures walked { IsWalked (fault_if_wrong wrong kind index walk.old) result walk.new }
    ensures left { OnOk result (HasRoomLeft 0 0 walk.old walk.new) }
{
    if wrong {
        return Err(Stop::fault(kind, index));
    }
    Ok(())
}

/// Notes the type of the expression at the token.
pub fn note_type(walk: &mut Walk, token: u32, ctype: Type)
    ensures { walk.new ≡ with_type token ctype walk.old }
{
    walk.types.set(token, Some(ctype));
    if walk.latest < token {
        walk.latest = token;
    }
}

/// The next variable, global or of the present function.
fn number_variable(walk: &mut Walk, global: bool) -> Variable
    requires { HasRoom 1 walk.old }
    ensures number { result ≡ next_variable global walk.old }
    ensures counted { walk.new ≡ counted_in global walk.old }
{
    if global {
        let index = walk.globals;
        walk.globals += 1;
        return Variable::Global { index };
    }
    let index = walk.locals;
    walk.locals += 1;
    Variable::Local { index }
}

/// One more variable, whose name stands at the token.
pub fn add_variable(
    walk: &mut Walk,
    global: bool,
    token: u32,
    name: &Name,
    ctype: Type,
) -> Result<(), Stop>
    requires { HasRoom 1 walk.old }
    ensures walked { IsWalked (Fine tt (with_variable global token name.now ctype walk.old)) result walk.new }
    ensures left { OnOk result (HasRoomLeft 1 0 walk.old walk.new) }
{
    let place = next_number(walk.variables.len());
    let variable = number_variable(walk, global);
    walk.declared_types.push(ctype)?;
    let meaning = Meaning::Variable { index: place };
    walk.names.declare(name, meaning)?;
    walk.variables.push(VariableEntry {
        name: name.try_clone()?,
        variable,
        from: token,
    })?;
    walk.ends.push(None)?;
    walk.variables_at.set(token, Some(place));
    Ok(())
}

/// A scope begins.
pub fn open_scope(walk: &mut Walk) -> Result<(), Stop>
    ensures walked { IsWalked (Fine tt (scope_opened walk.old)) result walk.new }
    ensures left { OnOk result (HasRoomLeft 0 0 walk.old walk.new) }
{
    walk.names.open()?;
    Ok(())
}

/// The latest scope ends, and with it those of its variables.
pub fn close_scope(walk: &mut Walk)
    ensures closed { scope_closed tt walk.old ≡ Fine tt walk.new }
    ensures left { HasRoomLeft 0 0 walk.old walk.new }
{
    let last = walk.latest;
    while let Some(ScopeEntry::Declares { meaning, .. }) = walk.names.pop() {
        if let Meaning::Variable { index } = meaning {
            walk.ends.set(index, Some(last));
        }
    }
}
