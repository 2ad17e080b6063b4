use crate::parts::Base;
use crate::token::Sign;
use cbi_base::{Kind, Name, Seq};

/// An expression. The token is the operator's, the name's for a call, that of the first comma for a comma expression, and
/// else the first one. A chain's and a postfix's tokens are those of their operators.
#[cycle(expr)]
#[derive(Drop)]
pub enum Expr {
    Comma {
        token: u32,
        operands: Vec<Expr>,
    },
    Assign {
        token: u32,
        sign: Sign,
        target: Box<Expr>,
        value: Box<Expr>,
    },
    Conditional {
        token: u32,
        condition: Box<Expr>,
        first: Box<Expr>,
        second: Box<Expr>,
    },
    /// Operators of one level, from 1 for `||` to 10 for `*`, grouped to the left.
    Chain {
        level: u8,
        first: Box<Expr>,
        links: Vec<Link>,
    },
    Cast {
        token: u32,
        base: Base,
        stars: u32,
        operand: Box<Expr>,
    },
    Prefix {
        token: u32,
        operator: PrefixOperator,
        operand: Box<Expr>,
    },
    SizeOfType {
        token: u32,
        base: Base,
        stars: u32,
    },
    Postfix {
        primary: Box<Expr>,
        operators: Vec<PostfixOperator>,
    },
    Name {
        token: u32,
        name: Name,
    },
    Call {
        token: u32,
        name: Name,
        arguments: Vec<Expr>,
    },
    Constant {
        token: u32,
        kind: Kind,
        value: i64,
    },
    /// Adjacent strings, which are one.
    Strings {
        token: u32,
        parts: Seq<Seq<u8>>,
    },
    Paren {
        token: u32,
        inner: Box<Expr>,
    },
    Null {
        token: u32,
    },
    EndOfFile {
        token: u32,
    },
}

/// An operator of a chain, with the operand after it.
#[cycle(expr)]
#[derive(Drop)]
pub struct Link {
    pub token: u32,
    pub sign: Sign,
    pub operand: Expr,
}

/// An operator behind its operand.
#[cycle(expr)]
#[derive(Drop)]
pub enum PostfixOperator {
    Index { token: u32, index: Expr },
    Member { token: u32, name: Name },
    Arrow { token: u32, name: Name },
    Increment { token: u32 },
    Decrement { token: u32 },
}

/// An operator before its operand: `++ -- sizeof & * + - ~ !`.
#[derive(Clone, Copy, Debug, PartialEq, Eq)]
pub enum PrefixOperator {
    Increment,
    Decrement,
    SizeOf,
    Address,
    Indirection,
    Plus,
    Minus,
    Complement,
    Not,
}
