ghost use Rattle.std.specs.Prelude.{◌≡◌, ◌≢◌, ℕ, List, []};
ghost use Rattle.cbi_base.specs.declared.outcome.Outcome.TheVariants.{Trapped};
ghost use Rattle.cbi_base.specs.declared.trap.Trap.TheVariants.{Internal};
ghost use Rattle.c_syntax.specs.ItemTree.{SourceTree};
ghost use Rattle.c_types_expressions.specs.declared.walk.Walk.{Walk};
ghost use Rattle.c_meaning.specs.Texts.{text_meaning};
ghost use Rattle.std.specs.List.{All};
ghost use Rattle.flow.specs.Sites.{IsSite};
ghost use Rattle.flow.specs.declared.choice.Schemes.{Schemes};
ghost use Rattle.sites.specs.Table.{sites_of};
ghost use Rattle.c_meaning_laws.specs.TypedText.{TypedText};
ghost use Rattle.c_meaning_sound.specs.Accepted.{IsAcceptedTree};
ghost use Rattle.c_meaning_sound.specs.Sample.{sample_tree, sample_walk};
ghost use Rattle.c_meaning_sound.specs.Sited.{IsSited, local_counts};

/// The types of an accepted text fit, with its site table for any schemes and without sites. So no run of it comes to trap Internal, on any
/// input and within any bound of turns, and it ends and writes the same with its sites and without them (PLDI 2003 section 2). There is such
/// a text, with a site of each kind.
pub fn an_accepted_text_never_faults()
    ensures table { (tree : SourceTree) (walk : Walk) (schemes : Schemes) → IsAcceptedTree tree walk → TypedText tree walk (sites_of tree walk schemes) }
    ensures plain { (tree : SourceTree) (walk : Walk) → IsAcceptedTree tree walk → TypedText tree walk [] }
    ensures never { (tree : SourceTree) (walk : Walk) (schemes : Schemes) (input : List ℕ) (turns : ℕ) → IsAcceptedTree tree walk
        → (text_meaning tree walk (sites_of tree walk schemes) input turns).outcome ≢ Trapped Internal }
    ensures never_plain { (tree : SourceTree) (walk : Walk) (input : List ℕ) (turns : ℕ) → IsAcceptedTree tree walk
        → (text_meaning tree walk [] input turns).outcome ≢ Trapped Internal }
    ensures outcome { (tree : SourceTree) (walk : Walk) (schemes : Schemes) (input : List ℕ) (turns : ℕ) → IsAcceptedTree tree walk
        → (text_meaning tree walk (sites_of tree walk schemes) input turns).outcome ≡ (text_meaning tree walk [] input turns).outcome }
    ensures output { (tree : SourceTree) (walk : Walk) (schemes : Schemes) (input : List ℕ) (turns : ℕ) → IsAcceptedTree tree walk
        → (text_meaning tree walk (sites_of tree walk schemes) input turns).output ≡ (text_meaning tree walk [] input turns).output }
    ensures example { IsAcceptedTree sample_tree sample_walk }
{}

/// Each site of an accepted text is one that a program takes, where the text's tokens keep names, constants and lines: it stands in one of the
/// defined functions, and looks at globals and at that function's own variables alone. There is such a text.
pub fn sites_of_an_accepted_text_stand()
    ensures stand { (tree : SourceTree) (walk : Walk) (schemes : Schemes) → IsAcceptedTree tree walk → IsSited tree
        → All (IsSite (local_counts walk) walk.globals) (sites_of tree walk schemes) }
    ensures example { IsSited sample_tree }
{}
