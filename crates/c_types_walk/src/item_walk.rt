ghost use Rattle.std.specs.Prelude.{◌≡◌, ◌<◌, ◌||◌, IfOk, OnOk, map, option_map, length, sum_by, true};
ghost use Rattle.std.specs.List.{flat_map};
ghost use Rattle.c_syntax.specs.Words.{most_bytes, plain_entries, plain_item, item_kinds, kind_text_len};
ghost use Rattle.c_types_walk.specs.ItemWalk.{is_clashing_name, function_checked, body_scope_opened, is_defined, known_as, typed_function, types_of, walk_body};
ghost use Rattle.c_types_walk.specs.ItemWalk.{walk_function};
ghost use Rattle.c_types_walk.specs.ItemWalk.{walk_item, walk_items, with_definition, with_function};
ghost use Rattle.c_types_walk.specs.Room.{body_text, entries_text, function_needs, item_needs, item_text};
ghost use Rattle.c_types_expressions.specs.Words.{with_stars, HasRoomLeft, HasRoom, Fine, IsWalked};

use crate::params::{add_params, listed, types_of, walk_params};
use crate::statement_walk::{walk_declaration, walk_entries};
use crate::struct_walk::walk_struct;
use c_syntax::{Base, Entry, Item, Params};
use c_types_expressions::{
    Definition, FunctionEntry, Meaning, Parameter, Stop, Walk, base_type, close_scope, is_reserved,
    next_number, open_scope, with_stars,
};
use c_types_rules::{FaultKind, FunctionType, Type, is_struct, same_function};
use cbi_base::{Memory, Name, Seq};
use std::alloc::Global;

/// A function's head: its first token, its name, and its parameters.
#[derive(Clone, Copy)]
struct Head<'a> {
    token: u32,
    name: &'a Name,
    params: &'a [Parameter],
}

/// The number of the function as which the name was declared before, with this type.
fn known_as(walk: &Walk, meaning: Option<Meaning>, function: &FunctionType) -> Option<u32>
    ensures { result ≡ known_as function.now meaning walk.now }
{
    let Some(Meaning::Function { index }) = meaning else {
        return None;
    };
    match walk.functions.as_slice().get(index as usize) {
        None => None,
        Some(known) => {
            if same_function(&known.ctype, function) {
                Some(index)
            } else {
                None
            }
        }
    }
}

/// Whether the name is one of the library, or was declared otherwise.
fn clashes(walk: &Walk, name: &Name, known: Option<u32>) -> bool
    ensures { result ≡ is_clashing_name name.now known walk.now }
{
    is_reserved(name) || (walk.names.is_here(name) && known.is_none())
}

/// Whether the function with this number is defined.
pub fn is_defined(index: u32, defined_as: &[Option<u32>]) -> bool
    ensures { result ≡ is_defined index defined_as.now }
{
    match defined_as.get(index as usize) {
        None => false,
        Some(definition) => definition.is_some(),
    }
}

/// A function comes into scope, if it isn't known.
fn add_function(
    walk: &mut Walk,
    name: &Name,
    function: FunctionType,
    known: Option<u32>,
) -> Result<(), Stop>
    requires { HasRoom 1 walk.old }
    ensures walked { IsWalked (Fine tt (with_function name.now function known walk.old)) result walk.new }
    ensures left { OnOk result (HasRoomLeft 1 0 walk.old walk.new) }
{
    if known.is_some() {
        return Ok(());
    }
    let index = next_number(walk.functions.len());
    walk.names.declare(name, Meaning::Function { index })?;
    walk.functions.push(FunctionEntry {
        name: name.try_clone()?,
        ctype: function,
    })?;
    walk.defined_as.push(None)?;
    Ok(())
}

/// A function's own faults.
fn declares(walk: &mut Walk, token: u32, taken: bool, gives: &Type) -> Result<(), Stop>
    ensures walked { IsWalked (function_checked token taken gives.now walk.old) result walk.new }
    ensures left { OnOk result (HasRoomLeft 0 0 walk.old walk.new) }
{
    if taken {
        return Err(Stop::fault(FaultKind::Redeclared, token));
    }
    if is_struct(gives.shape()) {
        return Err(Stop::fault(FaultKind::Object, token));
    }
    Ok(())
}

/// The definition of a function is noted.
fn add_definition(walk: &mut Walk, function: u32, first: u32) -> Result<(), Stop>
    requires { HasRoom 1 walk.old }
    ensures walked { IsWalked (Fine tt (with_definition function first walk.old)) result walk.new }
    ensures left { OnOk result (HasRoomLeft 1 0 walk.old walk.new) }
{
    let number = next_number(walk.definitions.len());
    let count = walk.locals;
    walk.definitions.push(Definition {
        function,
        first,
        count,
    })?;
    walk.defined_as.set(function, Some(number));
    Ok(())
}

/// The scope of a function begins with its parameters.
fn enter(alloc: Global, walk: &mut Walk, params: &[Parameter]) -> Result<(), Stop>
    requires { HasRoom (length params.now) walk.old }
    ensures walked { IsWalked (Fine tt (body_scope_opened params.now walk.old)) result walk.new }
    ensures left { OnOk result (HasRoomLeft (length params.now) 0 walk.old walk.new) }
{
    walk.locals = 0;
    open_scope(walk)?;
    add_params(alloc, walk, params)
}

/// The body of a function, and then the function itself.
#[tactic(auto, unfolding(crate::specs::ItemWalk::walk_body))]
fn walk_body(
    alloc: Global,
    walk: &mut Walk,
    head: &Head<'_>,
    function: FunctionType,
    body: &Seq<Entry>,
    known: Option<u32>,
) -> Result<(), Stop>
    requires room { HasRoom (function_needs (length head.now.params.now) (Some (plain_entries body.now))) walk.old }
    requires text { entries_text (plain_entries body.now) < most_bytes }
    ensures walked { IsWalked (walk_body head.now.token function head.now.name.now head.now.params.now (plain_entries body.now) known walk.old)
        result walk.new }
    ensures left { OnOk result (HasRoomLeft (function_needs (length head.now.params.now) (Some (plain_entries body.now))) 0 walk.old walk.new) }
{
    let index = match known {
        Some(index) => index,
        None => next_number(walk.functions.len()),
    };
    let first = next_number(walk.variables.len());
    let twice = is_defined(index, walk.defined_as.as_slice());
    let taken = clashes(walk, head.name, known) || twice;
    let gives = function.gives.try_clone(alloc)?;
    add_function(walk, head.name, function, known)?;
    enter(alloc, walk, head.params)?;
    walk_entries(alloc, walk, &gives, false, body.as_slice())?;
    close_scope(walk);
    declares(walk, head.token, taken, &gives)?;
    add_definition(walk, index, first)
}

/// A function behind its parameters, with a body or without.
fn walk_function(
    alloc: Global,
    walk: &mut Walk,
    head: &Head<'_>,
    function: FunctionType,
    body: &Option<Seq<Entry>>,
) -> Result<(), Stop>
    requires room { HasRoom (function_needs (length head.now.params.now) (option_map plain_entries body.now)) walk.old }
    requires text { body_text (option_map plain_entries body.now) < most_bytes }
    ensures walked { IsWalked (typed_function head.now.token function head.now.name.now head.now.params.now
        (option_map plain_entries body.now) walk.old) result walk.new }
    ensures left { OnOk result (HasRoomLeft (function_needs (length head.now.params.now) (option_map plain_entries body.now)) 0 walk.old walk.new) }
{
    let meaning = walk.names.find(head.name);
    let known = known_as(walk, meaning, &function);
    match body {
        Some(body) => walk_body(alloc, walk, head, function, body, known),
        None => {
            let taken = clashes(walk, head.name, known);
            let gives = function.gives.try_clone(alloc)?;
            add_function(walk, head.name, function, known)?;
            declares(walk, head.token, taken, &gives)
        }
    }
}

/// The type of a function that gives this base with so many stars and has these parameters.
fn function_type(
    alloc: Global,
    stars: u32,
    base: &Type,
    params: &[Parameter],
) -> Result<FunctionType, Memory>
    ensures { IfOk result (λ f. f ≡ record { gives = with_stars stars base.now; params = types_of params.now }) }
{
    Ok(FunctionType {
        gives: with_stars(alloc, stars, base)?,
        params: types_of(alloc, params)?,
    })
}

/// An item of a text.
fn walk_item(alloc: Global, walk: &mut Walk, item: &Item) -> Result<(), Stop>
    requires room { HasRoom (item_needs (plain_item item.now)) walk.old }
    requires text { item_text (plain_item item.now) < most_bytes }
    ensures walked { IsWalked (walk_item (plain_item item.now) walk.old) result walk.new }
    ensures left { OnOk result (HasRoomLeft (item_needs (plain_item item.now)) 0 walk.old walk.new) }
{
    match item {
        Item::Struct {
            token,
            tag,
            members,
        } => walk_struct(alloc, walk, *token, tag, members.as_slice()),
        Item::Declaration { declaration } => walk_declaration(alloc, walk, true, declaration),
        Item::Function {
            token,
            base,
            stars,
            name,
            params,
            body,
        } => {
            let base = base_type(walk, base)?;
            let params = walk_params(alloc, walk, body.is_some(), listed(params))?;
            let function = function_type(alloc, *stars, &base, params.as_slice())?;
            let head = Head {
                token: *token,
                name,
                params: params.as_slice(),
            };
            walk_function(alloc, walk, &head, function, body)
        }
    }
}

/// The items of a text, in order.
pub fn walk_items(alloc: Global, walk: &mut Walk, items: &[Item]) -> Result<(), Stop>
    requires room { HasRoom (length (flat_map item_kinds (map plain_item items.now))) walk.old }
    requires text { sum_by kind_text_len (flat_map item_kinds (map plain_item items.now)) < most_bytes }
    ensures { IsWalked (walk_items (map plain_item items.now) walk.old) result walk.new }
{
    for item in items {
        walk_item(alloc, walk, item)?;
    }
    Ok(())
}
