//! The grammar as one table of rules, a line a rule, and that it says what the walks of `c_syntax` say together.
#![tactic(auto)]

ghost use Rattle.std.specs.Prelude.{◌≡◌, List};
ghost use Rattle.c_syntax.specs.declared.token.Token.{Token};
ghost use Rattle.c_syntax.specs.Words.{IsWellFormed, kinds_of, lines_of, SourceTree, tree_kinds};
ghost use Rattle.c_grammar.specs.Tree.{IsTreeByGrammar};

/// The tree of a list of tokens by the grammar is well formed, has these tokens in order and records their lines; and each such tree is theirs by the grammar.
pub fn the_grammar_has_the_well_formed_trees()
    ensures is { (tokens : List Token) (t : SourceTree) → IsTreeByGrammar tokens t
        → IsWellFormed t × (tree_kinds t ≡ kinds_of tokens) × (t.lines ≡ lines_of tokens) }
    ensures has { (tokens : List Token) (t : SourceTree) → IsWellFormed t → tree_kinds t ≡ kinds_of tokens → t.lines ≡ lines_of tokens
        → IsTreeByGrammar tokens t }
{}
