ghost use Rattle.std.specs.Prelude.{◌≡◌, ◌≢◌, ◌↔◌, ◌+◌, ◌<◌, ◌≤◌, ◌++◌, ℕ, List, None, Some, Ok, Err, length, option_map};
ghost use Rattle.cbi_base.specs.Lines.{LeadsOnce};
ghost use Rattle.cbi_base.specs.declared.identity.ProgramId.{ProgramId};
ghost use Rattle.collector.specs.Collected.{next_after, report_relabelled, report_at, with_report, without_report};
ghost use Rattle.collector.specs.Collecting.{IsCollection, MayTake, counts_of_both, bundle_of, with_reports};
ghost use Rattle.collector.specs.Grammar.{BundleLineFollows};
ghost use Rattle.collector.specs.Merging.{AddsAll};
ghost use Rattle.collector.specs.Order.{AreAlike, IsOneOfReports, SameReports, map_of};
ghost use Rattle.collector.specs.RunText.{IsRunAt};
ghost use Rattle.collector.specs.Spelling.{RunsFrom, SpellsBundle, collection_text};
ghost use Rattle.collector.specs.declared.answers.AddFault.{AddFault};
ghost use Rattle.collector.specs.declared.answers.AddFault.TheVariants as fault;
ghost use Rattle.collector.specs.declared.answers.Merged.{Merged};
ghost use Rattle.collector.specs.declared.collection.Bundle.{Bundle};
ghost use Rattle.collector.specs.declared.collection.Held.{Held};
ghost use Rattle.collector.specs.declared.run_text.RunText.{RunText};
ghost use Rattle.report_file.specs.declared.label.Label.{Label};
ghost use Rattle.report_file.specs.declared.report.Report.{Report};

use std::alloc::Global;

/// Order does not matter: two lists of the same reports, in whatever order, repeated and grouped as one likes, have one map, where each run has one report.
pub fn order_does_not_matter()
    ensures members { (reports : List Report) → AreAlike reports → (r : Report) → IsOneOfReports r (map_of reports) ↔ IsOneOfReports r reports }
    ensures same { (xs ys : List Report) → AreAlike xs → SameReports xs ys → map_of xs ≡ map_of ys }
    // So a collection that takes either list whole is the same after it.
    ensures collections { (c a b : Held) (xs ys : List Report) (m n : Merged) → IsCollection c → SameReports xs ys
        → AddsAll c xs 0 0 (Ok m) a → AddsAll c ys 0 0 (Ok n) b → a ≡ b }
{}

/// A list of reports is taken whole exactly where it may be, unless memory runs out; and then the collection has the map of all of them.
pub fn reports_are_taken_whole()
    ensures map { (c after : Held) (reports : List Report) (merged : Merged) → IsCollection c → AddsAll c reports 0 0 (Ok merged) after
        → after ≡ with_reports reports c }
    ensures only { (c after : Held) (reports : List Report) (merged : Merged) → IsCollection c → AddsAll c reports 0 0 (Ok merged) after → MayTake c reports }
    ensures taken { (c after : Held) (reports : List Report) (why : AddFault) → IsCollection c → MayTake c reports
        → AddsAll c reports 0 0 (Err why) after → why ≡ fault.Memory }
    // The new ones are those that are held now and were not; the others are the repeated ones.
    ensures added { (c after : Held) (reports : List Report) (merged : Merged) → IsCollection c → AddsAll c reports 0 0 (Ok merged) after
        → merged.added + length c.reports ≡ length after.reports }
    ensures repeated { (c after : Held) (reports : List Report) (merged : Merged) → IsCollection c → AddsAll c reports 0 0 (Ok merged) after
        → merged.added + merged.repeated ≡ length reports }
{}

/// Grouping does not matter: reports that are taken in two groups are taken as one list, and a fault in the second group is one of that list.
pub fn groups_do_not_matter()
    ensures taken { (c via after : Held) (xs ys : List Report) (first second : Merged) → AddsAll c xs 0 0 (Ok first) via
        → AddsAll via ys 0 0 (Ok second) after
        → AddsAll c (xs ++ ys) 0 0 (Ok (counts_of_both first second)) after }
    ensures refused { (c via after : Held) (xs ys : List Report) (first : Merged) (why : AddFault) → AddsAll c xs 0 0 (Ok first) via
        → AddsAll via ys 0 0 (Err why) after
        → AddsAll c (xs ++ ys) 0 0 (Err why) after }
{}

/// A text spells at most one collection, whichever its version is.
pub fn one_collection(alloc: Global)
    ensures { (bytes : List ℕ) (a b : Bundle) → SpellsBundle bytes a → SpellsBundle bytes b → a ≡ b }
{
    let _alloc = alloc;
}

/// What is written of a collection is a text of it: so it is read again as what the collection holds.
pub fn written_collection()
    ensures { (c : Held) → IsCollection c → SpellsBundle (collection_text c) (bundle_of c) }
{}

/// In the grammar of collections a line leads to one state: so a text has at most one bad line, and none where it is read.
pub fn one_state()
    ensures { LeadsOnce BundleLineFollows }
{}

/// At a place of a text stands at most one run, with the longest list of its sites' lines.
pub fn one_run_text()
    ensures { (program : ProgramId) (bytes : List ℕ) (from : ℕ) (a b : RunText) → IsRunAt program bytes from a → IsRunAt program bytes from b → a ≡ b }
{}

/// A collection is a map from runs to reports: what is held of the run of a call changes as the call says, and what is held of others stays.
pub fn collections_are_maps()
    ensures with { (r : Report) (reports : List Report) → report_at r.run (with_report r reports) ≡ Some r }
    ensures with_other { (run : ℕ) (r : Report) (reports : List Report) → run ≢ r.run → report_at run (with_report r reports) ≡ report_at run reports }
    ensures without { (run : ℕ) (reports : List Report) → RunsFrom 0 reports → report_at run (without_report run reports) ≡ None }
    ensures without_other { (run gone : ℕ) (reports : List Report) → run ≢ gone → report_at run (without_report gone reports) ≡ report_at run reports }
    ensures relabelled { (run : ℕ) (label : Label) (reports : List Report) →
        report_at run (report_relabelled run label reports) ≡ option_map (λ (r : Report). record r { label = label }) (report_at run reports) }
    ensures relabelled_other { (run other : ℕ) (label : Label) (reports : List Report) → run ≢ other
        → report_at run (report_relabelled other label reports) ≡ report_at run reports }
    // The next report is the one with the least run above.
    ensures next { (run : ℕ) (reports : List Report) (next : Report) → RunsFrom 0 reports → next_after run reports ≡ Some next
        → IsOneOfReports next reports × (run < next.run) × ((other : Report) → IsOneOfReports other reports → run < other.run → next.run ≤ other.run) }
    ensures no_next { (run : ℕ) (reports : List Report) (other : Report) → next_after run reports ≡ None → IsOneOfReports other reports → other.run ≤ run }
{}
