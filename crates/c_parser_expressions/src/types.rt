ghost use Rattle.std.specs.Prelude.{◌≡◌, ◌≤◌, Ok, IfOk};
ghost use Rattle.c_parser_expressions.specs.Steps.{Gives};
ghost use Rattle.c_parser_expressions.specs.ExpressionParser.{the_unsigned, the_struct, the_base, the_stars, the_type, closed_type};

use crate::cursor::Reader;
use crate::stop::Stop;
use c_syntax::{Base, Sign, Word};

/// `unsigned`, behind which `int` may stand.
#[tactic(auto, using(crate::proofs::Heads::says_some), unfolding(crate::specs::ExpressionParser::the_unsigned))]
fn unsigned(reader: &mut Reader<'_>, token: u32) -> Base
    ensures { the_unsigned token reader.old ≡ Ok (result, reader.new) }
{
    if reader.says(Word::Int) {
        reader.pass();
        return Base::Unsigned { token, int: true };
    }
    Base::Unsigned { token, int: false }
}

/// The tag behind `struct`.
#[tactic(auto, unfolding(crate::specs::ExpressionParser::the_struct))]
fn tagged(reader: &mut Reader<'_>, token: u32) -> Result<Base, Stop>
    ensures { Gives (λ b. b) result reader.new (the_struct token reader.old) }
{
    let tag = reader.name()?;
    Ok(Base::Struct { token, tag })
}

/// The base of a type.
#[tactic(auto, using(crate::proofs::Heads::word_first), unfolding(crate::specs::ExpressionParser::the_base))]
pub fn base(reader: &mut Reader<'_>) -> Result<Base, Stop>
    ensures { Gives (λ b. b) result reader.new (the_base reader.old) }
{
    let token = reader.at();
    match reader.word() {
        Some(Word::Void) => {
            reader.pass();
            Ok(Base::Void { token })
        }
        Some(Word::Char) => {
            reader.pass();
            Ok(Base::Char { token })
        }
        Some(Word::Int) => {
            reader.pass();
            Ok(Base::Int { token })
        }
        Some(Word::Unsigned) => {
            reader.pass();
            Ok(unsigned(reader, token))
        }
        Some(Word::Struct) => {
            reader.pass();
            tagged(reader, token)
        }
        _ => Err(reader.refuse()),
    }
}

/// Stars, of which there are at most so many: each is one deeper.
#[tactic(auto, using(crate::proofs::Depths::stars_none, crate::proofs::Depths::stars_other, crate::proofs::Depths::stars_more, crate::proofs::Heads::stands_some))]
pub fn stars(reader: &mut Reader<'_>, most: u32) -> u32
    ensures all { the_stars most reader.old ≡ (result, reader.new) }
    ensures few { result ≤ most }
{
    if most == 0 {
        return 0;
    }
    if !reader.stands(Sign::Star) {
        return 0;
    }
    reader.pass();
    stars(reader, most - 1) + 1
}

/// A base with its stars.
#[tactic(auto, unfolding(crate::specs::ExpressionParser::the_type))]
pub fn type_name(reader: &mut Reader<'_>, depth: u32) -> Result<(Base, u32), Stop>
    ensures reads { Gives (λ t. t) result reader.new (the_type depth reader.old) }
    ensures few { IfOk result (λ t. t.1 ≤ depth) }
{
    let base = base(reader)?;
    let stars = stars(reader, depth);
    Ok((base, stars))
}

/// A type's name, behind its parenthesis.
#[tactic(auto, unfolding(crate::specs::ExpressionParser::closed_type))]
pub(crate) fn closed_type(reader: &mut Reader<'_>, depth: u32) -> Result<(Base, u32), Stop>
    ensures { Gives (λ t. t) result reader.new (closed_type depth reader.old) }
{
    let name = type_name(reader, depth)?;
    reader.expect(Sign::RightParen)?;
    Ok(name)
}
