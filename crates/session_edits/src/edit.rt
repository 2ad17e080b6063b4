use report_file::{Label, Report};

/// An edit of a session.
#[derive(Debug, Drop)]
pub enum Edit {
    /// The report is held from now on, under its run.
    Add { report: Report },
    /// The run is held no longer.
    Remove { run: u32 },
    /// The report of the run has this label from now on.
    Relabel { run: u32, label: Label },
    /// The predicates are ranked by the runs that are held now.
    Rank,
}
