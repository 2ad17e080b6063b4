use cbi_base::{Kind, Name, Seq};

/// A name that is a word of its own (C99 6.4.1), and the two library names that stand for constants.
#[derive(Clone, Copy, Debug, PartialEq, Eq)]
pub enum Word {
    Char,
    Do,
    Else,
    For,
    If,
    Int,
    Return,
    Sizeof,
    Struct,
    Unsigned,
    Void,
    While,
    Break,
    Continue,
    Null,
    EndOfFile,
    /// Any other keyword of C99. No rule of the grammar takes it.
    Unused,
}

/// A punctuator (C99 6.4.6).
#[derive(Clone, Copy, Debug, PartialEq, Eq)]
pub enum Sign {
    LeftBrace,
    RightBrace,
    LeftParen,
    RightParen,
    LeftBracket,
    RightBracket,
    Semicolon,
    Comma,
    Dot,
    Arrow,
    PlusPlus,
    MinusMinus,
    Ampersand,
    Star,
    Plus,
    Minus,
    Tilde,
    Exclamation,
    Slash,
    Percent,
    ShiftLeft,
    ShiftRight,
    Less,
    Greater,
    LessEqual,
    GreaterEqual,
    EqualEqual,
    NotEqual,
    Caret,
    Bar,
    AndAnd,
    OrOr,
    Question,
    Colon,
    Equal,
    StarEqual,
    SlashEqual,
    PercentEqual,
    PlusEqual,
    MinusEqual,
    ShiftLeftEqual,
    ShiftRightEqual,
    AndEqual,
    XorEqual,
    OrEqual,
}

/// What a token is. A constant lies in the range of its kind, and the kind is `Int` or `Unsigned`.
#[derive(Drop)]
pub enum TokenKind {
    Word { word: Word },
    Punctuator { sign: Sign },
    Name { name: Name },
    Constant { kind: Kind, value: i64 },
    Text { bytes: Seq<u8> },
}

/// A token with the line of its first byte, from 1.
#[derive(Drop)]
pub struct Token {
    pub kind: TokenKind,
    pub line: u32,
}
