ghost use Rattle.std.specs.Prelude.{◌≡◌, ◌≢◌, ℕ, List, []};
ghost use Rattle.std.specs.List.{All};
ghost use Rattle.cbi_base.specs.declared.outcome.Outcome.TheVariants.{Trapped};
ghost use Rattle.cbi_base.specs.declared.refusal.Refusal.{Refusal};
ghost use Rattle.cbi_base.specs.declared.refusal.Refusal.TheVariants.{TooManySites};
ghost use Rattle.cbi_base.specs.declared.trap.Trap.TheVariants.{Internal};
ghost use Rattle.c_syntax.specs.Words.{SourceTree, IsKeptTree};
ghost use Rattle.c_types_expressions.specs.declared.walk.Walk.{Walk};
ghost use Rattle.c_meaning.specs.Texts.{text_meaning};
ghost use Rattle.flow.specs.declared.program.ProgramParts.{ProgramParts};
ghost use Rattle.flow.specs.Words.{MachineEnds, IsPositive, IsSite, Ending};
ghost use Rattle.flow.specs.declared.choice.Schemes.{Schemes};
ghost use Rattle.sites.specs.Table.{sites_of};
ghost use Rattle.c_meaning_sound.specs.Sited.{IsSited, local_counts};
ghost use Rattle.compiler.specs.Accepted.{IsAccepted};
ghost use Rattle.compiler.specs.Rejected.{IsRejectedText, RejectsText};
ghost use Rattle.compiler.specs.Compiled.{IsCompiled};
ghost use Rattle.compiler.specs.Refused.{IsRefusedText, RefusesText};
ghost use Rattle.compiler.specs.declared.plan.Plan.{Plan};

use c_meaning_sound::{an_accepted_text_never_faults, sites_of_an_accepted_text_stand};
use flow::one_ending;

/// An accepted text has one tree, of which one thing is known.
pub fn one_accepted_text()
    ensures tree { (text : List ℕ) (t u : SourceTree) (v w : Walk) → IsAccepted text t v → IsAccepted text u w → t ≡ u }
    ensures known { (text : List ℕ) (t u : SourceTree) (v w : Walk) → IsAccepted text t v → IsAccepted text u w → v ≡ w }
{}

/// A text that a refusal speaks of isn't accepted.
pub fn refused_texts_are_not_accepted()
    ensures { (refusal : Refusal) (text : List ℕ) → RejectsText refusal text → IsRejectedText text }
{}

/// No run of an accepted text comes to trap Internal, on any input and within any bound of turns, with its sites and without them; and it ends and
/// writes the same.
pub fn accepted_texts_never_fault()
    ensures never { (text : List ℕ) (tree : SourceTree) (known : Walk) (schemes : Schemes) (input : List ℕ) (turns : ℕ) → IsAccepted text tree known
        → (text_meaning tree known (sites_of tree known schemes) input turns).outcome ≢ Trapped Internal }
    ensures never_plain { (text : List ℕ) (tree : SourceTree) (known : Walk) (input : List ℕ) (turns : ℕ) → IsAccepted text tree known
        → (text_meaning tree known [] input turns).outcome ≢ Trapped Internal }
    ensures outcome { (text : List ℕ) (tree : SourceTree) (known : Walk) (schemes : Schemes) (input : List ℕ) (turns : ℕ) → IsAccepted text tree known
        → (text_meaning tree known (sites_of tree known schemes) input turns).outcome ≡ (text_meaning tree known [] input turns).outcome }
    ensures output { (text : List ℕ) (tree : SourceTree) (known : Walk) (schemes : Schemes) (input : List ℕ) (turns : ℕ) → IsAccepted text tree known
        → (text_meaning tree known (sites_of tree known schemes) input turns).output ≡ (text_meaning tree known [] input turns).output }
{
    an_accepted_text_never_faults();
}

/// Names, constants and lines of an accepted text are ones that sites can have. So each of its sites, for any schemes, is one that a program takes:
/// it stands in one of the defined functions, and looks at globals and at that function's own variables alone.
pub fn sites_of_accepted_texts_stand()
    ensures sited { (text : List ℕ) (tree : SourceTree) (known : Walk) → IsAccepted text tree known → IsSited tree }
    ensures stand { (text : List ℕ) (tree : SourceTree) (known : Walk) (schemes : Schemes) → IsAccepted text tree known
        → All (IsSite (local_counts known) known.globals) (sites_of tree known schemes) }
{
    sites_of_an_accepted_text_stand();
}

/// An accepted text's tokens are few. Their constants lie in their kinds, their names are names, and their strings are of bytes, and together shorter
/// than a text.
pub fn tokens_of_accepted_texts_fit()
    ensures { (text : List ℕ) (tree : SourceTree) (known : Walk) → IsAccepted text tree known → IsKeptTree tree }
{}

/// A text has one meaning in all plans: its plain, full and sampled programs end and write the same, on each input, within each bound of turns and
/// whatever the banks.
pub fn plans_agree()
    ensures outcome { (text : List ℕ) (a b : Plan) (p q : ProgramParts) → IsCompiled text a p → IsCompiled text b q
        → (input : List ℕ) (bank other : ℕ → ℕ) (turns : ℕ) (x y : Ending) → IsPositive bank → IsPositive other
        → MachineEnds p input bank turns x → MachineEnds q input other turns y → x.outcome ≡ y.outcome }
    ensures output { (text : List ℕ) (a b : Plan) (p q : ProgramParts) → IsCompiled text a p → IsCompiled text b q
        → (input : List ℕ) (bank other : ℕ → ℕ) (turns : ℕ) (x y : Ending) → IsPositive bank → IsPositive other
        → MachineEnds p input bank turns x → MachineEnds q input other turns y → x.output ≡ y.output }
{
    one_ending();
    one_accepted_text();
    accepted_texts_never_fault();
}

/// A text that a refusal speaks of is a refused one, and no program is what a refused text is compiled to. One that is refused for its sites is
/// refused for nothing else.
pub fn refused_texts_are_not_compiled()
    ensures refused { (plan : Plan) (refusal : Refusal) (text : List ℕ) → RefusesText plan refusal text → IsRefusedText plan text }
    ensures sites_alone { (plan : Plan) (refusal : Refusal) (text : List ℕ) → RefusesText plan TooManySites text → RefusesText plan refusal text
        → refusal ≡ TooManySites }
    ensures not_compiled { (plan : Plan) (text : List ℕ) (p : ProgramParts) → IsRefusedText plan text → IsCompiled text plan p → ⊥ }
{
    one_accepted_text();
    refused_texts_are_not_accepted();
}
