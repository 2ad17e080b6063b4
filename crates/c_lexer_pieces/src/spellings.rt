ghost use Rattle.std.specs.Prelude.{◌≡◌, map};
ghost use Rattle.c_lexer_pieces.specs.Spellings.{value_in, word_of, sign_spelled};

use c_syntax::{Sign, Word};

const WORDS: [(&[u8], Word); 39] = [
    (b"char", Word::Char),
    (b"do", Word::Do),
    (b"else", Word::Else),
    (b"for", Word::For),
    (b"if", Word::If),
    (b"int", Word::Int),
    (b"return", Word::Return),
    (b"sizeof", Word::Sizeof),
    (b"struct", Word::Struct),
    (b"unsigned", Word::Unsigned),
    (b"void", Word::Void),
    (b"while", Word::While),
    (b"break", Word::Break),
    (b"continue", Word::Continue),
    (b"NULL", Word::Null),
    (b"EOF", Word::EndOfFile),
    (b"auto", Word::Unused),
    (b"case", Word::Unused),
    (b"const", Word::Unused),
    (b"default", Word::Unused),
    (b"double", Word::Unused),
    (b"enum", Word::Unused),
    (b"extern", Word::Unused),
    (b"float", Word::Unused),
    (b"goto", Word::Unused),
    (b"inline", Word::Unused),
    (b"long", Word::Unused),
    (b"register", Word::Unused),
    (b"restrict", Word::Unused),
    (b"short", Word::Unused),
    (b"signed", Word::Unused),
    (b"static", Word::Unused),
    (b"switch", Word::Unused),
    (b"typedef", Word::Unused),
    (b"union", Word::Unused),
    (b"volatile", Word::Unused),
    (b"_Bool", Word::Unused),
    (b"_Complex", Word::Unused),
    (b"_Imaginary", Word::Unused),
];

const SIGNS: [(&[u8], Sign); 45] = [
    (b"{", Sign::LeftBrace),
    (b"}", Sign::RightBrace),
    (b"(", Sign::LeftParen),
    (b")", Sign::RightParen),
    (b"[", Sign::LeftBracket),
    (b"]", Sign::RightBracket),
    (b";", Sign::Semicolon),
    (b",", Sign::Comma),
    (b".", Sign::Dot),
    (b"->", Sign::Arrow),
    (b"++", Sign::PlusPlus),
    (b"--", Sign::MinusMinus),
    (b"&", Sign::Ampersand),
    (b"*", Sign::Star),
    (b"+", Sign::Plus),
    (b"-", Sign::Minus),
    (b"~", Sign::Tilde),
    (b"!", Sign::Exclamation),
    (b"/", Sign::Slash),
    (b"%", Sign::Percent),
    (b"<<", Sign::ShiftLeft),
    (b">>", Sign::ShiftRight),
    (b"<", Sign::Less),
    (b">", Sign::Greater),
    (b"<=", Sign::LessEqual),
    (b">=", Sign::GreaterEqual),
    (b"==", Sign::EqualEqual),
    (b"!=", Sign::NotEqual),
    (b"^", Sign::Caret),
    (b"|", Sign::Bar),
    (b"&&", Sign::AndAnd),
    (b"||", Sign::OrOr),
    (b"?", Sign::Question),
    (b":", Sign::Colon),
    (b"=", Sign::Equal),
    (b"*=", Sign::StarEqual),
    (b"/=", Sign::SlashEqual),
    (b"%=", Sign::PercentEqual),
    (b"+=", Sign::PlusEqual),
    (b"-=", Sign::MinusEqual),
    (b"<<=", Sign::ShiftLeftEqual),
    (b">>=", Sign::ShiftRightEqual),
    (b"&=", Sign::AndEqual),
    (b"^=", Sign::XorEqual),
    (b"|=", Sign::OrEqual),
];

/// The word that these bytes spell.
#[tactic(auto, unfolding(crate::specs::Spellings::word_table))]
pub fn word_of(bytes: &[u8]) -> Option<Word>
    ensures { result ≡ word_of bytes.now }
{
    value_in(&WORDS, bytes)
}

/// The punctuator that these bytes spell.
#[tactic(auto, unfolding(crate::specs::Spellings::sign_table))]
pub fn sign_of(bytes: &[u8]) -> Option<Sign>
    ensures { result ≡ sign_spelled bytes.now }
{
    value_in(&SIGNS, bytes)
}

fn value_in<T: Copy>(table: &[(&[u8], T)], bytes: &[u8]) -> Option<T>
    ensures { result ≡ value_in (map (λ e. (e.0.now, e.1)) table.now) bytes.now }
{
    for (spelling, value) in table {
        if *spelling == bytes {
            return Some(*value);
        }
    }
    None
}
