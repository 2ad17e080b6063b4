ghost use Rattle.std.specs.Prelude.{◌≡◌, ℕ, List, IsTrue, Some, slice_get};
ghost use Rattle.cbi_base.specs.Lines.{LeadsOnce};
ghost use Rattle.cbi_base.specs.declared.outcome.Counts.{Counts};
ghost use Rattle.report_file.specs.Grammar.{ReportLineFollows};
ghost use Rattle.report_file.specs.Report.{Among, IsReport, RiseFrom, entries_of, is_positive};
ghost use Rattle.report_file.specs.Spelling.{SpellsReport, report_text};
ghost use Rattle.report_file.specs.declared.report.Entry.{Entry};
ghost use Rattle.report_file.specs.declared.report.Report.{Report};

/// A text spells at most one report, whichever its version is.
pub fn one_report()
    ensures { (bytes : List ℕ) (a b : Report) → SpellsReport bytes a → SpellsReport bytes b → a ≡ b }
{}

/// What is written of a report is a text of it: so it is read again as that report.
pub fn written_report()
    ensures { (r : Report) → IsReport r → SpellsReport (report_text r) r }
{}

/// In the grammar of reports a line leads to one state: so a text has at most one bad line, and none where it is read.
pub fn one_state()
    ensures { LeadsOnce ReportLineFollows }
{}

/// The entries of a run rise, each is a site with its counters, one of them positive, and each such site has one.
pub fn made_entries()
    ensures rising { (counts : List Counts) → RiseFrom 0 (entries_of counts) }
    ensures sites { (counts : List Counts) (e : Entry) → Among e (entries_of counts) → slice_get counts e.site ≡ Some e.counts }
    ensures positive { (counts : List Counts) (e : Entry) → Among e (entries_of counts) → IsTrue (is_positive e.counts) }
    ensures all { (counts : List Counts) (site : ℕ) (c : Counts) → slice_get counts site ≡ Some c → IsTrue (is_positive c)
        → Among (record { site = site; counts = c }) (entries_of counts) }
{}
