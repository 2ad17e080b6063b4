use crate::parts::{Base, Members, Params};
use crate::statement::{Declaration, Entry};
use cbi_base::{Name, Seq};

/// What a text consists of. The token is the item's first.
#[derive(Drop)]
pub enum Item {
    Struct {
        token: u32,
        tag: Name,
        members: Seq<Members>,
    },
    /// A function, with a body where it is defined.
    Function {
        token: u32,
        base: Base,
        stars: u32,
        name: Name,
        params: Params,
        body: Option<Seq<Entry>>,
    },
    Declaration {
        declaration: Declaration,
    },
}

/// A syntax tree, with the line of each of its tokens in order.
#[derive(Drop)]
pub struct Tree {
    pub items: Seq<Item>,
    pub lines: Seq<u32>,
}
