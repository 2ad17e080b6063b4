//! Laws of the definitions, each on a function of its own without a body.
ghost use Rattle.std.specs.Prelude.{ℕ, ◌≤◌, ◌<◌, ◌⊎◌, List, length, replicate, All};
ghost use Rattle.flow.specs.Sites.{MayPart};
ghost use Rattle.c_syntax.specs.declared.token.Token.{Token};
ghost use Rattle.c_syntax.specs.Words.{SourceTree, most_bytes, most_tokens, IsTokens};
ghost use Rattle.c_lexer.specs.Lexing.{Lexes};
ghost use Rattle.c_lexer.specs.Refusals.{HasMany, IsTooLarge};
ghost use Rattle.c_types_expressions.specs.declared.walk.Walk.{Walk};
ghost use Rattle.compiler.specs.declared.plan.Plan.{Plan};
ghost use Rattle.compiler.specs.Accepted.{HasTokens, IsAccepted};
ghost use Rattle.compiler.specs.Planned.{FitsPlan, part_in};
ghost use Rattle.compiler_exists.specs.Compiled.{HasCompiled};

use crate::{each_program_has_a_cloned_form, each_ready_text_has_a_program};
use c_lexer::one_cutting;
use compiler::accepted_texts_never_fault;
use sampling::sampled_runs;

/// Each accepted text has a program that it is compiled to, by each plan for whose sites a program has room: the plain one, and the full and
/// the sampled one with all sites or a part of them. So no text is left without one but for want of memory.
pub fn each_accepted_text_has_a_program()
    ensures { (text : List ℕ) (plan : Plan) (tree : SourceTree) (known : Walk) → IsAccepted text tree known → FitsPlan plan tree known
        → MayPart (part_in plan) → HasCompiled text plan }
{
    accepted_texts_never_fault();
    each_ready_text_has_a_program();
    each_program_has_a_cloned_form();
    sampled_runs();
}

/// A text of bytes has the tokens that it lexes to, unless it has more bytes or more tokens than a text may. So that the tokens of a text keep what
/// a list of tokens does asks nothing of the text but that they are not too many: the rest follows from how it is cut.
pub fn texts_have_the_tokens_they_lex_to()
    ensures keeps { (text : List ℕ) (tokens : List Token) → All (λ b. b < 256) text → length text ≤ most_bytes → Lexes text tokens
        → length tokens ≤ most_tokens → IsTokens tokens }
    ensures has { (text : List ℕ) (tokens : List Token) → All (λ b. b < 256) text → length text ≤ most_bytes → Lexes text tokens
        → length tokens ≤ most_tokens → HasTokens text tokens }

    // It has them or is too large, and never both.
    ensures or_large { (text : List ℕ) (tokens : List Token) → All (λ b. b < 256) text → Lexes text tokens
        → HasTokens text tokens ⊎ IsTooLarge text }
    ensures not_large { (text : List ℕ) (tokens : List Token) → HasTokens text tokens → IsTooLarge text → ⊥ }

    // Each token takes a byte at least. That they are not too many doesn't follow: a text of more than 100,000 `;` alone has too many.
    ensures few { (text : List ℕ) (tokens : List Token) → Lexes text tokens → length tokens ≤ length text }
    ensures many { (n : ℕ) → most_tokens < n → HasMany (replicate n 59) }
{
    one_cutting();
}
