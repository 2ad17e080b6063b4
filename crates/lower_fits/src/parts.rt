ghost use Rattle.std.specs.Prelude.{◌≡◌, ◌<◌, ◌≤◌, ℕ, List, Some, length, slice_get, sum_by};
ghost use Rattle.std.specs.List.{All, AllByRecursion};
ghost use Rattle.cbi_base.specs.Name.{IsName};
ghost use Rattle.c_syntax.specs.Words.{SourceTree, tree_kinds, IsOfBytes};
ghost use Rattle.c_types_expressions.specs.declared.walk.Definition.{Definition};
ghost use Rattle.c_types_expressions.specs.declared.walk.Walk.{Walk};
ghost use Rattle.c_meaning.specs.Words.{facts_of, main_of, Signature};
ghost use Rattle.flow.specs.Words.{byte_limit, function_limit, local_limit, text_limit, AreLocals, AreTexts};
ghost use Rattle.flow.specs.declared.program.Text.{Text};
ghost use Rattle.defined_functions.specs.Functions.{functions_of};
ghost use Rattle.c_meaning_sound.specs.Accepted.{IsAcceptedTree};
ghost use Rattle.c_meaning_sound.specs.Sited.{IsSited, count_of};
ghost use Rattle.lower_facts.specs.Signatures.{AreSized};
ghost use Rattle.lower_fits.specs.Brought.{IsMainSignature, IsSigned};

/// The strings of an accepted text are texts of a program: few, and of few bytes together. They are of bytes where the strings among its tokens are.
pub fn texts_of_an_accepted_text_fit()
    ensures few { (tree : SourceTree) (walk : Walk) → IsAcceptedTree tree walk → IsSited tree
        → length (facts_of tree walk).statics.texts ≤ text_limit }
    ensures total { (tree : SourceTree) (walk : Walk) → IsAcceptedTree tree walk
        → sum_by (λ (t : Text). length t.bytes) (facts_of tree walk).statics.texts ≤ byte_limit }
    ensures fit { (tree : SourceTree) (walk : Walk) → IsAcceptedTree tree walk → IsSited tree → AllByRecursion IsOfBytes (tree_kinds tree)
        → AreTexts (facts_of tree walk).statics.texts }
{}

/// The functions that an accepted text defines are at least one and few, with few locals together; no two have one name, and each name is one.
/// Each has a signature, with locals of sizes that a program takes, the parameters first, of one cell each. No variable is larger than an object
/// may be. `main` is one of the functions: it gives a value and has no parameters.
pub fn functions_of_an_accepted_text_fit()
    ensures some { (tree : SourceTree) (walk : Walk) → IsAcceptedTree tree walk → 0 < length walk.definitions }
    ensures few { (tree : SourceTree) (walk : Walk) → IsAcceptedTree tree walk → IsSited tree → length walk.definitions ≤ function_limit }
    ensures signed { (tree : SourceTree) (walk : Walk) → IsAcceptedTree tree walk → (number : ℕ) (d : Definition)
        → slice_get walk.definitions number ≡ Some d → IsSigned (facts_of tree walk) number d }
    ensures locals { (tree : SourceTree) (walk : Walk) → IsAcceptedTree tree walk → (number : ℕ) (f : Signature)
        → (facts_of tree walk).signature number ≡ Some f → AreLocals (length f.params) f.locals }
    ensures together { (tree : SourceTree) (walk : Walk) → IsAcceptedTree tree walk → IsSited tree → sum_by count_of walk.definitions ≤ local_limit }
    ensures sized { (tree : SourceTree) (walk : Walk) → IsAcceptedTree tree walk → AreSized walk }
    ensures main { (tree : SourceTree) (walk : Walk) → IsAcceptedTree tree walk → IsMainSignature ((facts_of tree walk).signature (main_of walk)) }
    ensures names { (tree : SourceTree) (walk : Walk) → IsAcceptedTree tree walk → IsSited tree → All IsName (functions_of tree) }
    ensures distinct { (tree : SourceTree) (walk : Walk) → IsAcceptedTree tree walk → (i j : ℕ) (name : List ℕ)
        → slice_get (functions_of tree) i ≡ Some name → slice_get (functions_of tree) j ≡ Some name → i ≡ j }
    ensures as_many { (tree : SourceTree) (walk : Walk) → IsAcceptedTree tree walk → length (functions_of tree) ≡ length walk.definitions }
{}
