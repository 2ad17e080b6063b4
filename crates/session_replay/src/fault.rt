use collector::AddFault;

/// Why edits were not done.
#[derive(Clone, Copy, Debug, PartialEq, Eq)]
pub enum EditFault {
    /// A report was not added.
    NotAdded { fault: AddFault },
    /// A run that is to be removed or relabelled isn't held.
    Absent { run: u32 },
    Memory,
}
