use cbi_base::{Kind, Name, Seq};

/// An integer constant: its kind, `Int` or `Unsigned`, and its value.
#[derive(Clone, Copy, PartialEq, Eq)]
pub struct Constant {
    pub kind: Kind,
    pub value: i64,
}

/// The base of a type. The token is its first.
#[derive(Drop)]
pub enum Base {
    Void { token: u32 },
    Char { token: u32 },
    Int { token: u32 },
    /// `unsigned`, and whether `int` follows.
    Unsigned { token: u32, int: bool },
    Struct { token: u32, tag: Name },
}

/// `[`, a constant or none, and `]`.
#[derive(Clone, Copy, PartialEq, Eq)]
pub struct Bound {
    pub length: Option<Constant>,
}

/// A declared name with its stars before it and its bounds behind it. The token is the first of these, and the name has
/// one of its own.
#[derive(Drop)]
pub struct Declarator {
    pub token: u32,
    pub stars: u32,
    pub name_token: u32,
    pub name: Name,
    pub bounds: Seq<Bound>,
}

/// One line of members in a struct's definition. The token is that of its base.
#[derive(Drop)]
pub struct Members {
    pub token: u32,
    pub base: Base,
    pub declarators: Seq<Declarator>,
}

/// A parameter. The token is that of its base.
#[derive(Drop)]
pub struct Param {
    pub token: u32,
    pub base: Base,
    pub stars: u32,
    pub name: Option<ParamName>,
}

/// A parameter's name, and its bound where it is declared as an array. The token is the name's.
#[derive(Drop)]
pub struct ParamName {
    pub token: u32,
    pub name: Name,
    pub bound: Option<Bound>,
}

/// What stands between a function's parentheses.
#[derive(Drop)]
pub enum Params {
    Empty,
    Void,
    List { list: Seq<Param> },
}
