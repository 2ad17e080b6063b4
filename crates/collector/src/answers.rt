use cbi_base::ProgramId;

/// What became of a report that was added.
#[derive(Clone, Copy, Debug, PartialEq, Eq)]
pub enum Added {
    /// It is held now.
    New,
    /// The same report was held already.
    Repeated,
}

/// How many reports of a bundle were new, and how many were held already.
#[derive(Clone, Copy, Debug, PartialEq, Eq)]
pub struct Merged {
    pub added: u32,
    pub repeated: u32,
}

/// Why a report was not added.
#[derive(Clone, Copy, Debug, PartialEq, Eq)]
pub enum AddFault {
    /// It is of another program.
    Foreign { ours: ProgramId, theirs: ProgramId },
    /// It names a site that the program hasn't, or has a third counter at a branch.
    NoSite { run: u32, site: u32 },
    /// Its run is held with another report.
    Conflict { run: u32 },
    /// As many reports are held as may be.
    TooManyReports { run: u32 },
    /// With its entries there would be more than may be.
    TooManyMarks { run: u32 },
    Memory,
}
