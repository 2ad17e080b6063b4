/// Which copy of a function.
#[derive(Clone, Copy)]
pub enum Side {
    /// The copy without tests, which only lowers the countdown.
    Fast,
    /// The copy with a test for each visit of a site.
    Slow,
}

/// What a node of a sampled function stands for, by a node of the original one.
#[derive(Clone, Copy)]
pub enum CopyLabel {
    /// The entry, which takes a copy of the countdown.
    Enter,
    /// The choice of a copy before the node.
    Gate { node: u32 },
    /// The return from a weighty function before the node, which takes a copy of the countdown.
    Back { node: u32 },
    /// The node in a copy, where the countdown is still to be lowered by `owed`.
    In { side: Side, node: u32, owed: u32 },
    /// The node by which control leaves the function, after the copy of the countdown was given back.
    Out { side: Side, node: u32 },
}
