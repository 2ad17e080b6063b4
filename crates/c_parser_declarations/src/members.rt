ghost use Rattle.std.specs.Prelude.{◌∷◌, []};
ghost use Rattle.c_parser_expressions.specs.Steps.{Gives, with_front, all_of};
ghost use Rattle.c_parser_declarations.specs.Turns.{GivesStep};
ghost use Rattle.c_parser_declarations.specs.PartParser.{declarator_step, members_by, members_step, lines_by};

use crate::declarator;
use c_parser_expressions::{Reader, Stop, base};
use c_syntax::{Declarator, Members, Sign};
use cbi_base::Seq;
use std::alloc::Global;

/// A further declarator, where a comma stands.
#[tactic(auto, using(c_parser_expressions::proofs::Heads::stands_some), unfolding(crate::specs::PartParser::declarator_step))]
fn next_declarator(
    alloc: Global,
    reader: &mut Reader<'_>,
    depth: u32,
) -> Result<Option<Declarator>, Stop>
    ensures { GivesStep (λ x. x) result reader.old reader.new (declarator_step depth reader.old) }
{
    if !reader.stands(Sign::Comma) {
        return Ok(None);
    }
    reader.pass();
    let declarator = declarator(alloc, reader, depth)?;
    Ok(Some(declarator))
}

/// The declarators of a line, of which the first is read.
fn declarators(
    alloc: Global,
    reader: &mut Reader<'_>,
    depth: u32,
    first: Declarator,
) -> Result<Seq<Declarator>, Stop>
    ensures { Gives (λ x. x) result reader.new (with_front (first ∷ []) (all_of (declarator_step depth) reader.old)) }
{
    let mut declarators = Vec::new(alloc);
    declarators.push(first)?;
    'declarators: while let Some(item) = next_declarator(alloc, reader, depth)? {
        declarators.push(item)?;
    }
    Ok(Seq::from_vec(declarators))
}

/// One line of members.
#[tactic(auto, unfolding(crate::specs::PartParser::members_by))]
fn members(alloc: Global, reader: &mut Reader<'_>, depth: u32) -> Result<Members, Stop>
    ensures { Gives (λ x. x) result reader.new (members_by depth reader.old) }
{
    let token = reader.at();
    let base = base(reader)?;
    let first = declarator(alloc, reader, depth)?;
    let declarators = declarators(alloc, reader, depth, first)?;
    reader.expect(Sign::Semicolon)?;
    Ok(Members {
        token,
        base,
        declarators,
    })
}

/// A further line of members, unless the struct ends.
#[tactic(auto, unfolding(crate::specs::PartParser::members_step))]
fn next_members(alloc: Global, reader: &mut Reader<'_>, depth: u32) -> Result<Option<Members>, Stop>
    ensures { GivesStep (λ x. x) result reader.old reader.new (members_step depth reader.old) }
{
    if reader.stands(Sign::RightBrace) {
        return Ok(None);
    }
    let members = members(alloc, reader, depth)?;
    Ok(Some(members))
}

/// The lines of a struct, of which the first is read.
fn lines(
    alloc: Global,
    reader: &mut Reader<'_>,
    depth: u32,
    first: Members,
) -> Result<Seq<Members>, Stop>
    ensures { Gives (λ x. x) result reader.new (with_front (first ∷ []) (all_of (members_step depth) reader.old)) }
{
    let mut lines = Vec::new(alloc);
    lines.push(first)?;
    'lines: while let Some(item) = next_members(alloc, reader, depth)? {
        lines.push(item)?;
    }
    Ok(Seq::from_vec(lines))
}

/// The lines of members of a struct, and the brace behind them.
#[tactic(auto, unfolding(crate::specs::PartParser::lines_by))]
pub fn member_lines(
    alloc: Global,
    reader: &mut Reader<'_>,
    depth: u32,
) -> Result<Seq<Members>, Stop>
    ensures { Gives (λ x. x) result reader.new (lines_by depth reader.old) }
{
    let first = members(alloc, reader, depth)?;
    let lines = lines(alloc, reader, depth, first)?;
    reader.expect(Sign::RightBrace)?;
    Ok(lines)
}
