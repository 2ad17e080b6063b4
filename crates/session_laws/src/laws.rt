ghost use Rattle.std.specs.Prelude.{◌≡◌, ◌∷◌, ◌++◌, [], ℕ, List, Ok, map};
ghost use Rattle.collector.specs.Merging.{AddsAll};
ghost use Rattle.collector.specs.declared.answers.Merged.{Merged};
ghost use Rattle.collector.specs.declared.collection.Held.{Held};
ghost use Rattle.report_file.specs.declared.report.Report.{Report};
ghost use Rattle.session_edits.specs.Held.{report_held};
ghost use Rattle.session_edits.specs.declared.edit.Edit.{Edit};
ghost use Rattle.session_edits.specs.declared.edit.Edit.TheVariants.{Add};
ghost use Rattle.session_laws.specs.Accepted.{Accepts, AreApart, AreHeldOf, IsFaulty};

/// A collection without reports that accepts edits one after another holds what the list of edits says: of each run where an addition of it stands
/// behind its last removal, the report of the first such addition, with the label of the last relabelling behind that. No two collections hold that.
pub fn accepted_edits_hold()
    ensures held { (c after : Held) (edits : List Edit) → c.reports ≡ [] → Accepts c edits after → AreHeldOf edits after.reports }
    ensures one { (edits : List Edit) (a b : List Report) → AreHeldOf edits a → AreHeldOf edits b → a ≡ b }
{}

/// Edits of different runs may change places: then the same is held of each run.
pub fn edits_change_places()
    ensures { (run : ℕ) (before after : List Edit) (one other : Edit) → AreApart one other
        → report_held run (before ++ one ∷ other ∷ after) ≡ report_held run (before ++ other ∷ one ∷ after) }
{}

/// Additions alone are accepted exactly where a collection takes all their reports, and they leave the same: so a ranking behind them is that of the
/// collection.
pub fn additions_are_collected()
    ensures taken { (c after : Held) (reports : List Report) → Accepts c (map Add reports) after → (merged : Merged) × AddsAll c reports 0 0 (Ok merged) after }
    ensures only { (c after : Held) (reports : List Report) (merged : Merged) → AddsAll c reports 0 0 (Ok merged) after → Accepts c (map Add reports) after }
{}

/// Edits that are accepted leave one collection, and none of them is faulty where it stands: so a list of edits has at most one first faulty edit.
pub fn one_ending()
    ensures same { (c a b : Held) (edits : List Edit) → Accepts c edits a → Accepts c edits b → a ≡ b }
    ensures none_faulty { (c at after : Held) (before more : List Edit) (edit : Edit) → Accepts c before at → IsFaulty at edit
        → Accepts c (before ++ edit ∷ more) after → ⊥ }
{}
