/// Of which schemes a program has sites: branches, returned values, and scalar pairs (PLDI 2005 section 2).
#[derive(Clone, Copy, Debug, PartialEq, Eq)]
pub struct Schemes {
    pub branches: bool,
    pub returns: bool,
    pub pairs: bool,
}

/// A part of the sites of a program: those whose number modulo the count is the index.
#[derive(Clone, Copy, Debug, PartialEq, Eq)]
pub struct Part {
    /// Which of the parts it is, from 0.
    pub index: u32,
    /// How many there are, from 1 to 65,536.
    pub count: u32,
}
