use crate::expr::Expr;
use crate::parts::{Base, Declarator};
use cbi_base::Seq;

/// A declaration of variables. The token is that of its base.
#[derive(Drop)]
pub struct Declaration {
    pub token: u32,
    pub base: Base,
    pub starts: Seq<Start>,
}

/// A declared variable, with its initialiser. The token is the declarator's.
#[derive(Drop)]
pub struct Start {
    pub token: u32,
    pub declarator: Declarator,
    pub initial: Option<Initial>,
}

/// An initialiser: an expression, or a braced list, with or without a comma at its end.
#[derive(Drop)]
pub enum Initial {
    Value {
        value: Expr,
    },
    Braced {
        token: u32,
        items: Seq<Expr>,
        comma: bool,
    },
}

/// What stands in a block or in a function's body.
#[cycle(statement)]
#[derive(Drop)]
pub enum Entry {
    Declaration { declaration: Declaration },
    Statement { statement: Statement },
}

/// A statement. The token is its first.
#[cycle(statement)]
#[derive(Drop)]
pub enum Statement {
    Block {
        token: u32,
        entries: Vec<Entry>,
    },
    Empty {
        token: u32,
    },
    Expr {
        token: u32,
        expr: Expr,
    },
    If {
        token: u32,
        condition: Expr,
        first: Box<Statement>,
        second: Option<Box<Statement>>,
    },
    While {
        token: u32,
        condition: Expr,
        body: Box<Statement>,
    },
    Do {
        token: u32,
        body: Box<Statement>,
        condition: Expr,
    },
    For {
        token: u32,
        start: ForStart,
        condition: Option<Expr>,
        step: Option<Expr>,
        body: Box<Statement>,
    },
    Return {
        token: u32,
        value: Option<Expr>,
    },
    Break {
        token: u32,
    },
    Continue {
        token: u32,
    },
}

/// What a `for` does first.
#[derive(Drop)]
pub enum ForStart {
    Declares { declaration: Declaration },
    Computes { expr: Option<Expr> },
}
