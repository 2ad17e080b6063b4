//! Laws of the definitions, each on a function of its own without a body.
ghost use Rattle.std.specs.Prelude.{◌≡◌, ◌∷◌, ◌++◌, [], ℕ, List, Ok, map};
ghost use Rattle.cbi_base.specs.declared.identity.ProgramId.{ProgramId};
ghost use Rattle.cbi_base.specs.declared.policy.Policy.{Policy};
ghost use Rattle.collector.specs.Merging.{AddsAll};
ghost use Rattle.collector.specs.Order.{map_of};
ghost use Rattle.collector.specs.declared.answers.Merged.{Merged};
ghost use Rattle.collector.specs.declared.collection.Held.{Held};
ghost use Rattle.flow.specs.declared.site.TableParts.{TableParts};
ghost use Rattle.ranking.specs.Ranked.{IsRankingOf};
ghost use Rattle.report_file.specs.declared.report.Report.{Report};
ghost use Rattle.session_edits.specs.declared.edit.Edit.{Edit};
ghost use Rattle.session_edits.specs.declared.edit.Edit.TheVariants.{Add, Rank};
ghost use Rattle.session_replay.specs.Replay.{AreRankings, no_runs};
ghost use Rattle.elimination_tallies.specs.Recount.{runs_of};

/// Edits print one text.
pub fn one_text()
    ensures { (table : TableParts) (policy : Policy) (edits : List Edit) (a b : List ℕ) → AreRankings table policy [] edits a
        → AreRankings table policy [] edits b → a ≡ b }
{}

/// Additions alone and one ranking print the ranking of the collection that takes their reports.
pub fn additions_are_ranked()
    ensures { (program : ProgramId) (table : TableParts) (policy : Policy) (reports : List Report) (merged : Merged) (after : Held) (text : List ℕ)
        → AddsAll (no_runs program table) reports 0 0 (Ok merged) after → AreRankings table policy [] (map Add reports ++ Rank ∷ []) text
        → IsRankingOf table policy (runs_of after.reports) text }
{}

/// They print the ranking of the map of their reports, of each run the first, whatever a collection makes of them.
pub fn additions_print_their_map()
    ensures { (table : TableParts) (policy : Policy) (reports : List Report) (text : List ℕ)
        → AreRankings table policy [] (map Add reports ++ Rank ∷ []) text → IsRankingOf table policy (runs_of (map_of reports)) text }
{}
