ghost use Rattle.std.specs.Prelude.{◌≡◌, ◌∷◌, []};
ghost use Rattle.c_parser_expressions.specs.Steps.{Gives, with_front, all_of};
ghost use Rattle.c_parser_declarations.specs.Turns.{GivesStep};
ghost use Rattle.c_parser_declarations.specs.PartParser.{
  one_bound,
  param_name_by,
  is_void_base,
  param_by,
  param_step,
  param_list_by,
  is_void_word,
  only_void,
  params_by,
};

use crate::bound;
use c_parser_expressions::{Reader, Stop, type_name};
use c_syntax::{Base, Bound, Param, ParamName, Params, Sign, TokenKind, Word};
use cbi_base::Seq;
use std::alloc::Global;

/// One bound or none, and none where nothing may lie deeper.
#[tactic(auto, using(c_parser_expressions::proofs::Heads::stands_some), unfolding(crate::specs::PartParser::one_bound))]
fn one_bound(reader: &mut Reader<'_>, most: u32) -> Result<Option<Bound>, Stop>
    ensures { Gives (λ x. x) result reader.new (one_bound most reader.old) }
{
    if most == 0 || !reader.stands(Sign::LeftBracket) {
        return Ok(None);
    }
    reader.pass();
    let bound = bound(reader)?;
    Ok(Some(bound))
}

/// A parameter's name with its bound, where a name stands.
#[tactic(auto, unfolding(crate::specs::PartParser::param_name_by))]
fn param_name(reader: &mut Reader<'_>, most: u32) -> Result<Option<ParamName>, Stop>
    ensures { Gives (λ x. x) result reader.new (param_name_by most reader.old) }
{
    let token = reader.at();
    let Some(TokenKind::Name { name }) = reader.next() else {
        return Ok(None);
    };
    let name = name.try_clone()?;
    reader.pass();
    let bound = one_bound(reader, most)?;
    Ok(Some(ParamName { token, name, bound }))
}

fn is_void(base: &Base) -> bool
    ensures { result ≡ is_void_base base.now }
{
    match base {
        Base::Void { .. } => true,
        Base::Char { .. } | Base::Int { .. } | Base::Unsigned { .. } | Base::Struct { .. } => false,
    }
}

/// A parameter. Of `void` it has a star.
#[tactic(auto, unfolding(crate::specs::PartParser::param_by, crate::specs::PartParser::param_of))]
fn param(reader: &mut Reader<'_>, depth: u32) -> Result<Param, Stop>
    ensures { Gives (λ x. x) result reader.new (param_by depth reader.old) }
{
    let token = reader.at();
    let (base, stars) = type_name(reader, depth)?;
    if is_void(&base) && stars == 0 {
        return Err(reader.refuse());
    }
    let name = param_name(reader, depth - stars)?;
    Ok(Param {
        token,
        base,
        stars,
        name,
    })
}

/// A further parameter, where a comma stands.
#[tactic(auto, using(c_parser_expressions::proofs::Heads::stands_some), unfolding(crate::specs::PartParser::param_step))]
fn next_param(reader: &mut Reader<'_>, depth: u32) -> Result<Option<Param>, Stop>
    ensures { GivesStep (λ x. x) result reader.old reader.new (param_step depth reader.old) }
{
    if !reader.stands(Sign::Comma) {
        return Ok(None);
    }
    reader.pass();
    let param = param(reader, depth)?;
    Ok(Some(param))
}

/// Parameters, of which the first is read.
fn further(
    alloc: Global,
    reader: &mut Reader<'_>,
    depth: u32,
    first: Param,
) -> Result<Seq<Param>, Stop>
    ensures { Gives (λ x. x) result reader.new (with_front (first ∷ []) (all_of (param_step depth) reader.old)) }
{
    let mut further = Vec::new(alloc);
    further.push(first)?;
    'further: while let Some(item) = next_param(reader, depth)? {
        further.push(item)?;
    }
    Ok(Seq::from_vec(further))
}

/// Parameters, with the parenthesis behind them.
#[tactic(auto, unfolding(crate::specs::PartParser::param_list_by))]
fn param_list(alloc: Global, reader: &mut Reader<'_>, depth: u32) -> Result<Params, Stop>
    ensures { Gives (λ x. x) result reader.new (param_list_by depth reader.old) }
{
    let first = param(reader, depth)?;
    let list = further(alloc, reader, depth, first)?;
    reader.expect(Sign::RightParen)?;
    Ok(Params::List { list })
}

/// Whether `void` stands there alone.
fn is_only_void(reader: &Reader<'_>) -> bool
    ensures { result ≡ only_void reader.now.rest }
{
    if !is_void_word(reader.word()) {
        return false;
    }
    reader.stands_behind(Sign::RightParen)
}

fn is_void_word(word: Option<Word>) -> bool
    ensures { result ≡ is_void_word word }
{
    matches!(word, Some(Word::Void))
}

/// What stands between the parentheses of a function, behind the first.
#[tactic(auto, using(c_parser_expressions::proofs::Heads::stands_some), unfolding(crate::specs::PartParser::params_by))]
pub fn params(alloc: Global, reader: &mut Reader<'_>, depth: u32) -> Result<Params, Stop>
    ensures { Gives (λ x. x) result reader.new (params_by depth reader.old) }
{
    if reader.stands(Sign::RightParen) {
        reader.pass();
        return Ok(Params::Empty);
    }
    if is_only_void(reader) {
        reader.pass();
        reader.pass();
        return Ok(Params::Void);
    }
    param_list(alloc, reader, depth)
}
