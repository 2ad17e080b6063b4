ghost use Rattle.std.specs.Prelude.{◌≡◌, ◌≤◌, ◌-◌, ◌+◌, ◌∷◌, [], map, option_map};
ghost use Rattle.std.specs.Option.{IsSome};
ghost use Rattle.c_syntax.specs.Plain.{plain_expr, plain_initial, plain_start, plain_declaration};
ghost use Rattle.c_parser_expressions.specs.Reading.{first_kind};
ghost use Rattle.c_parser_expressions.specs.Steps.{Gives, with_front, all_of};
ghost use Rattle.c_parser_declarations.specs.Turns.{GivesStep};
ghost use Rattle.c_parser_expressions.specs.ExpressionParser.{assignment_by, deeper_than};
ghost use Rattle.c_parser_declarations.specs.DeclarationParser.{constant_of, past_constant, the_bound, the_bounds, the_declarator, item_step, end_of_list};
ghost use Rattle.c_parser_declarations.specs.DeclarationParser.{braced_by, initial_by, initialised_by, start_by, start_step, more_starts_by};
ghost use Rattle.c_parser_declarations.specs.DeclarationParser.{declaration_by};
ghost use Rattle.c_parser_expressions.specs.Views.{plain_items};

use c_parser_expressions::{Reader, Stop, assigned, base, stars};
use c_syntax::{Bound, Constant, Declaration, Declarator, Expr, Initial, Sign, Start, TokenKind};
use cbi_base::Seq;
use std::alloc::Global;

/// The constant that the next token is, which is passed.
fn constant(reader: &mut Reader<'_>) -> Option<Constant>
    ensures value { result ≡ constant_of (first_kind reader.old.rest) }
    ensures past { reader.new ≡ past_constant result reader.old }
{
    let Some(TokenKind::Constant { kind, value }) = reader.next() else {
        return None;
    };
    let constant = Constant {
        kind: *kind,
        value: *value,
    };
    reader.pass();
    Some(constant)
}

/// What stands behind a bracket: a constant or none, and the other bracket.
#[tactic(auto, unfolding(crate::specs::DeclarationParser::the_bound))]
pub fn bound(reader: &mut Reader<'_>) -> Result<Bound, Stop>
    ensures { Gives (λ x. x) result reader.new (the_bound reader.old) }
{
    let length = constant(reader);
    reader.expect(Sign::RightBracket)?;
    Ok(Bound { length })
}

/// Bounds for as long as one begins, and at most so many.
#[tactic(auto, using(c_parser_expressions::proofs::Heads::stands_some), unfolding(crate::specs::DeclarationParser::the_bounds))]
pub fn bounds(alloc: Global, reader: &mut Reader<'_>, most: u32) -> Result<Seq<Bound>, Stop>
    ensures { Gives (λ x. x) result reader.new (the_bounds most reader.old) }
{
    let mut bounds = Vec::new(alloc);
    let mut left = most;
    'bounds: while left > 0 && reader.stands(Sign::LeftBracket) {
        reader.pass();
        bounds.push(bound(reader)?)?;
        left -= 1;
    }
    Ok(Seq::from_vec(bounds))
}

/// A name with its stars and its bounds.
#[tactic(auto, unfolding(crate::specs::DeclarationParser::the_declarator, crate::specs::DeclarationParser::declarator_by))]
pub fn declarator(alloc: Global, reader: &mut Reader<'_>, depth: u32) -> Result<Declarator, Stop>
    ensures { Gives (λ x. x) result reader.new (the_declarator depth reader.old) }
{
    let token = reader.at();
    let stars = stars(reader, depth);
    let name_token = reader.at();
    let name = reader.name()?;
    let bounds = bounds(alloc, reader, depth - stars)?;
    Ok(Declarator {
        token,
        stars,
        name_token,
        name,
        bounds,
    })
}

/// A further item of a braced list. A comma that ends the list has none behind it.
#[tactic(auto, using(c_parser_expressions::proofs::Heads::stands_some), unfolding(crate::specs::DeclarationParser::item_step))]
fn next_item(alloc: Global, reader: &mut Reader<'_>, depth: u32) -> Result<Option<Expr>, Stop>
    ensures { GivesStep plain_expr result reader.old reader.new (item_step (assignment_by depth (deeper_than depth)) reader.old) }
{
    if !reader.stands(Sign::Comma) || reader.stands_behind(Sign::RightBrace) {
        return Ok(None);
    }
    reader.pass();
    let item = assigned(alloc, reader, depth)?;
    Ok(Some(item))
}

/// The items of a braced list, of which the first is read.
fn items(alloc: Global, reader: &mut Reader<'_>, depth: u32, first: Expr) -> Result<Vec<Expr>, Stop>
    ensures { Gives plain_items result reader.new
        (with_front (plain_expr first ∷ []) (all_of (item_step (assignment_by depth (deeper_than depth))) reader.old)) }
{
    let mut items = Vec::new(alloc);
    items.push(first)?;
    'items: while let Some(item) = next_item(alloc, reader, depth)? {
        items.push(item)?;
    }
    Ok(items)
}

/// Whether a comma stands at the end of a braced list, which is left.
#[tactic(auto, using(c_parser_expressions::proofs::Heads::stands_some), unfolding(crate::specs::DeclarationParser::end_of_list))]
fn end_of_list(reader: &mut Reader<'_>) -> Result<bool, Stop>
    ensures { Gives (λ x. x) result reader.new (end_of_list reader.old) }
{
    if reader.stands(Sign::Comma) {
        reader.pass();
        reader.expect(Sign::RightBrace)?;
        return Ok(true);
    }
    reader.expect(Sign::RightBrace)?;
    Ok(false)
}

/// An initialiser in braces.
#[tactic(auto, using(c_parser_expressions::proofs::Depths::deeper_assignment), unfolding(crate::specs::DeclarationParser::braced_by))]
fn braced(alloc: Global, reader: &mut Reader<'_>, depth: u32) -> Result<Initial, Stop>
    requires { IsSome (first_kind reader.old.rest) }
    ensures { Gives plain_initial result reader.new (braced_by depth reader.old) }
{
    if depth == 0 {
        return Err(reader.refuse());
    }
    let token = reader.at();
    reader.pass();
    let first = assigned(alloc, reader, depth - 1)?;
    let items = items(alloc, reader, depth - 1, first)?;
    let comma = end_of_list(reader)?;
    Ok(Initial::Braced {
        token,
        items: Seq::from_vec(items),
        comma,
    })
}

/// An initialiser.
#[tactic(auto, using(c_parser_expressions::proofs::Heads::stands_some), unfolding(crate::specs::DeclarationParser::initial_by))]
fn initial(alloc: Global, reader: &mut Reader<'_>, depth: u32) -> Result<Initial, Stop>
    ensures { Gives plain_initial result reader.new (initial_by depth reader.old) }
{
    if reader.stands(Sign::LeftBrace) {
        return braced(alloc, reader, depth);
    }
    let value = assigned(alloc, reader, depth)?;
    Ok(Initial::Value { value })
}

/// An initialiser behind its sign, where that stands.
#[tactic(auto, using(c_parser_expressions::proofs::Heads::stands_some), unfolding(crate::specs::DeclarationParser::initialised_by))]
pub fn initialised(
    alloc: Global,
    reader: &mut Reader<'_>,
    depth: u32,
) -> Result<Option<Initial>, Stop>
    ensures { Gives (option_map plain_initial) result reader.new (initialised_by depth reader.old) }
{
    if !reader.stands(Sign::Equal) {
        return Ok(None);
    }
    reader.pass();
    let initial = initial(alloc, reader, depth)?;
    Ok(Some(initial))
}

/// A declared variable. `by` is how much deeper its initialiser is than its declaration.
#[tactic(auto, unfolding(crate::specs::DeclarationParser::start_by))]
fn start(alloc: Global, reader: &mut Reader<'_>, by: u32, depth: u32) -> Result<Start, Stop>
    requires { by ≤ depth }
    ensures { Gives plain_start result reader.new (start_by by depth reader.old) }
{
    let token = reader.at();
    let declarator = declarator(alloc, reader, depth)?;
    let initial = initialised(alloc, reader, depth - by)?;
    Ok(Start {
        token,
        declarator,
        initial,
    })
}

/// A further variable of a declaration, where a comma stands.
#[tactic(auto, using(c_parser_expressions::proofs::Heads::stands_some), unfolding(crate::specs::DeclarationParser::start_step))]
fn next_start(
    alloc: Global,
    reader: &mut Reader<'_>,
    by: u32,
    depth: u32,
) -> Result<Option<Start>, Stop>
    requires { by ≤ depth }
    ensures { GivesStep plain_start result reader.old reader.new (start_step by depth reader.old) }
{
    if !reader.stands(Sign::Comma) {
        return Ok(None);
    }
    reader.pass();
    let start = start(alloc, reader, by, depth)?;
    Ok(Some(start))
}

/// The variables of a declaration, of which the first is read.
fn starts(
    alloc: Global,
    reader: &mut Reader<'_>,
    by: u32,
    depth: u32,
    first: Start,
) -> Result<Seq<Start>, Stop>
    requires { by ≤ depth }
    ensures { Gives (map plain_start) result reader.new (with_front (plain_start first ∷ []) (all_of (start_step by depth) reader.old)) }
{
    let mut starts = Vec::new(alloc);
    starts.push(first)?;
    'starts: while let Some(start) = next_start(alloc, reader, by, depth)? {
        starts.push(start)?;
    }
    Ok(Seq::from_vec(starts))
}

/// The variables of a declaration, of which the first is read, and the semicolon.
#[tactic(auto, unfolding(crate::specs::DeclarationParser::more_starts_by))]
pub fn more_starts(
    alloc: Global,
    reader: &mut Reader<'_>,
    by: u32,
    depth: u32,
    first: Start,
) -> Result<Seq<Start>, Stop>
    requires { by ≤ depth }
    ensures { Gives (map plain_start) result reader.new (more_starts_by by depth (plain_start first) reader.old) }
{
    let starts = starts(alloc, reader, by, depth, first)?;
    reader.expect(Sign::Semicolon)?;
    Ok(starts)
}

/// A declaration.
#[tactic(auto, unfolding(crate::specs::DeclarationParser::declaration_by, crate::specs::DeclarationParser::starts_by))]
pub fn declaration(
    alloc: Global,
    reader: &mut Reader<'_>,
    by: u32,
    depth: u32,
) -> Result<Declaration, Stop>
    requires { by ≤ depth }
    ensures { Gives plain_declaration result reader.new (declaration_by by depth reader.old) }
{
    let token = reader.at();
    let base = base(reader)?;
    let first = start(alloc, reader, by, depth)?;
    let starts = more_starts(alloc, reader, by, depth, first)?;
    Ok(Declaration {
        token,
        base,
        starts,
    })
}
