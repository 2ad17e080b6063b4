/// What is told of a command that is done.
#[derive(Clone, Copy, Debug, PartialEq, Eq)]
pub enum Done {
    /// The line of each watcher.
    Lines,
    Nothing,
    /// How many runs a collection holds, and how many of the reports were held already.
    Added {
        added: u32,
        repeated: u128,
    },
    /// The line of each watcher, and then how many runs were made, and how many of them failed, succeeded, and were neither.
    Counted {
        runs: u32,
        failed: u32,
        succeeded: u32,
        neither: u32,
    },
}
