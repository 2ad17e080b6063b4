ghost use Rattle.std.specs.Prelude.{◌≤◌, option_map};
ghost use Rattle.c_syntax.specs.Plain.{plain_entries, plain_item};
ghost use Rattle.c_parser_expressions.specs.Steps.{Gives};
ghost use Rattle.c_parser_items.specs.ItemViews.{plain_head};
ghost use Rattle.c_parser_items.specs.ItemParser.{struct_by, body_by, function_by, globals_by, headed_by, declared_by, item_by};

use c_parser_declarations::{bounds, initialised, member_lines, more_starts, params};
use c_parser_expressions::{Reader, Stop, base, stars};
use c_parser_statements::entries;
use c_syntax::{Base, Declaration, Declarator, Entry, Item, Sign, Start};
use cbi_base::{Name, Seq};
use std::alloc::Global;

/// What stands before the parenthesis of a function, or up to the name of a first variable.
#[derive(Drop)]
struct Head {
    token: u32,
    base: Base,
    /// The index of the token behind the base.
    first: u32,
    stars: u32,
    name_token: u32,
    name: Name,
}

/// A struct, behind its brace.
#[tactic(auto, unfolding(crate::specs::ItemParser::struct_by))]
fn struct_item(
    alloc: Global,
    reader: &mut Reader<'_>,
    depth: u32,
    token: u32,
    tag: Name,
) -> Result<Item, Stop>
    ensures { Gives plain_item result reader.new (struct_by depth token tag reader.old) }
{
    let members = member_lines(alloc, reader, depth)?;
    reader.expect(Sign::Semicolon)?;
    Ok(Item::Struct {
        token,
        tag,
        members,
    })
}

/// A body, or a semicolon.
#[tactic(auto, using(c_parser_expressions::proofs::Heads::stands_some), unfolding(crate::specs::ItemParser::body_by))]
fn body(alloc: Global, reader: &mut Reader<'_>, depth: u32) -> Result<Option<Seq<Entry>>, Stop>
    ensures { Gives (option_map plain_entries) result reader.new (body_by depth reader.old) }
{
    if reader.stands(Sign::Semicolon) {
        reader.pass();
        return Ok(None);
    }
    reader.expect(Sign::LeftBrace)?;
    let entries = entries(alloc, reader, depth)?;
    Ok(Some(Seq::from_vec(entries)))
}

/// A function, behind its first parenthesis.
#[tactic(auto, unfolding(crate::specs::ItemParser::function_by))]
fn function(alloc: Global, reader: &mut Reader<'_>, depth: u32, head: Head) -> Result<Item, Stop>
    ensures { Gives plain_item result reader.new (function_by depth (plain_head head) reader.old) }
{
    let params = params(alloc, reader, depth)?;
    let body = body(alloc, reader, depth)?;
    Ok(Item::Function {
        token: head.token,
        base: head.base,
        stars: head.stars,
        name: head.name,
        params,
        body,
    })
}

/// A declaration of globals, behind its first name.
#[tactic(auto, unfolding(crate::specs::ItemParser::globals_by))]
fn globals(alloc: Global, reader: &mut Reader<'_>, depth: u32, head: Head) -> Result<Item, Stop>
    requires positive { 1 ≤ depth }
    requires few { head.stars ≤ depth }
    ensures { Gives plain_item result reader.new (globals_by depth (plain_head head) reader.old) }
{
    let bounds = bounds(alloc, reader, depth - head.stars)?;
    let initial = initialised(alloc, reader, depth - 1)?;
    let declarator = Declarator {
        token: head.first,
        stars: head.stars,
        name_token: head.name_token,
        name: head.name,
        bounds,
    };
    let first = Start {
        token: head.first,
        declarator,
        initial,
    };
    let starts = more_starts(alloc, reader, 1, depth, first)?;
    let declaration = Declaration {
        token: head.token,
        base: head.base,
        starts,
    };
    Ok(Item::Declaration { declaration })
}

/// What stands behind a head.
#[tactic(auto, using(c_parser_expressions::proofs::Heads::stands_some), unfolding(crate::specs::ItemParser::headed_by))]
fn headed(alloc: Global, reader: &mut Reader<'_>, depth: u32, head: Head) -> Result<Item, Stop>
    requires positive { 1 ≤ depth }
    requires few { head.stars ≤ depth }
    ensures { Gives plain_item result reader.new (headed_by depth (plain_head head) reader.old) }
{
    if reader.stands(Sign::LeftParen) {
        reader.pass();
        return function(alloc, reader, depth, head);
    }
    globals(alloc, reader, depth, head)
}

/// What stands behind a base.
#[tactic(auto, unfolding(crate::specs::ItemParser::declared_by, crate::specs::ItemParser::head_by))]
fn declared(
    alloc: Global,
    reader: &mut Reader<'_>,
    depth: u32,
    token: u32,
    base: Base,
) -> Result<Item, Stop>
    requires { 1 ≤ depth }
    ensures { Gives plain_item result reader.new (declared_by depth token base reader.old) }
{
    let first = reader.at();
    let stars = stars(reader, depth);
    let name_token = reader.at();
    let name = reader.name()?;
    let head = Head {
        token,
        base,
        first,
        stars,
        name_token,
        name,
    };
    headed(alloc, reader, depth, head)
}

/// An item.
#[tactic(auto, using(c_parser_expressions::proofs::Heads::stands_some), unfolding(crate::specs::ItemParser::item_by))]
pub fn item(alloc: Global, reader: &mut Reader<'_>, depth: u32) -> Result<Item, Stop>
    requires { 1 ≤ depth }
    ensures { Gives plain_item result reader.new (item_by depth reader.old) }
{
    let token = reader.at();
    match base(reader)? {
        Base::Struct { token: at, tag } => {
            if reader.stands(Sign::LeftBrace) {
                reader.pass();
                return struct_item(alloc, reader, depth, token, tag);
            }
            declared(alloc, reader, depth, token, Base::Struct { token: at, tag })
        }
        base => declared(alloc, reader, depth, token, base),
    }
}
