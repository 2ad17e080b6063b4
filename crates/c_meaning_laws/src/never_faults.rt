ghost use Rattle.std.specs.Prelude.{◌≡◌, ◌≢◌, ℕ, List, []};
ghost use Rattle.cbi_base.specs.declared.outcome.Outcome.TheVariants.{Trapped};
ghost use Rattle.cbi_base.specs.declared.trap.Trap.TheVariants.{Internal};
ghost use Rattle.c_syntax.specs.ItemTree.{SourceTree};
ghost use Rattle.c_types_expressions.specs.declared.walk.Walk.{Walk};
ghost use Rattle.flow.specs.declared.site.Site.{Site};
ghost use Rattle.c_meaning.specs.Words.{Source, meaning, text_meaning};
ghost use Rattle.c_meaning_laws.specs.Example.{example_source};
ghost use Rattle.c_meaning_laws.specs.TypedSource.{SourceFits, without_sites};
ghost use Rattle.c_meaning_laws.specs.TypedText.{TypedText};

/// A text whose types fit never comes to trap Internal, on any input and within any bound of turns: `never` says it of what the meaning sees of
/// a text, `text` of a tree after the walk through its types, with a site table. There is such a text, with a site of each kind.
pub fn a_typed_text_never_faults()
    ensures never { (src : Source) (input : List ℕ) (turns : ℕ) → SourceFits src → (meaning src input turns).outcome ≢ Trapped Internal }
    ensures text { (tree : SourceTree) (walk : Walk) (table : List Site) (input : List ℕ) (turns : ℕ) → TypedText tree walk table
        → (text_meaning tree walk table input turns).outcome ≢ Trapped Internal }
    ensures example { SourceFits example_source }
{}

/// Sites change nothing of a run but what is seen: a text whose types fit ends and writes the same without them (PLDI 2003 section 2).
pub fn sites_change_nothing()
    ensures outcome { (src : Source) (input : List ℕ) (turns : ℕ) → SourceFits src
        → (meaning src input turns).outcome ≡ (meaning (without_sites src) input turns).outcome }
    ensures output { (src : Source) (input : List ℕ) (turns : ℕ) → SourceFits src
        → (meaning src input turns).output ≡ (meaning (without_sites src) input turns).output }
    ensures text_outcome { (tree : SourceTree) (walk : Walk) (table : List Site) (input : List ℕ) (turns : ℕ) → TypedText tree walk table
        → (text_meaning tree walk table input turns).outcome ≡ (text_meaning tree walk [] input turns).outcome }
    ensures text_output { (tree : SourceTree) (walk : Walk) (table : List Site) (input : List ℕ) (turns : ℕ) → TypedText tree walk table
        → (text_meaning tree walk table input turns).output ≡ (text_meaning tree walk [] input turns).output }
{}
