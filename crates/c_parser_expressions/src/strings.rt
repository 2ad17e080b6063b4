ghost use Rattle.std.specs.Prelude.{◌≡◌};
ghost use Rattle.c_syntax.specs.Plain.{plain_expr};
ghost use Rattle.c_parser_expressions.specs.Steps.{Gives, all_of};
ghost use Rattle.c_parser_expressions.specs.ExpressionParser.{text_step, strings_by};

use crate::cursor::Reader;
use crate::stop::Stop;
use c_syntax::Expr;
use cbi_base::Seq;
use std::alloc::Global;

/// Strings one after another.
#[tactic(auto, using(crate::proofs::Primary::text_turn, crate::proofs::Primary::text_end, crate::proofs::Heads::text_some, crate::proofs::Many::front_start))]
fn texts(alloc: Global, reader: &mut Reader<'_>) -> Result<Vec<Seq<u8>>, Stop>
    ensures { Gives (λ v. v.items) result reader.new (all_of text_step reader.old) }
{
    let mut parts = Vec::new(alloc);
    'parts: while let Some(bytes) = reader.text() {
        let part = Seq::from_vec(Vec::from_slice(alloc, bytes.as_slice())?);
        reader.pass();
        parts.push(part)?;
    }
    Ok(parts)
}

/// Strings one after another are one expression.
#[tactic(auto, using(c_syntax::proofs::PlainExprs::plain_strings), unfolding(crate::specs::ExpressionParser::strings_by))]
pub(crate) fn strings(alloc: Global, reader: &mut Reader<'_>) -> Result<Expr, Stop>
    ensures { Gives plain_expr result reader.new (strings_by reader.old) }
{
    let token = reader.at();
    let parts = texts(alloc, reader)?;
    Ok(Expr::Strings {
        token,
        parts: Seq::from_vec(parts),
    })
}
