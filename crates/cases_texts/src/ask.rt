//! What may be asked of a text.
use cases_rows::are_numbers;

/// A question. Schemes S are named by their first letters, `b`, `r` and `p`, or by `-` where there is none.
#[derive(Debug, Clone, Copy)]
pub(crate) enum Ask {
    /// `tokens`: each with its line.
    Tokens,
    /// `length`: how many tokens there are.
    Length,
    /// `line I`: the line of this token.
    Line,
    /// `tree`: each operator with its operands in parentheses.
    Tree,
    /// `types`: `accepted`, or the kind of the first fault and its token.
    Types,
    /// `type I`: the type of the expression of this token.
    Type,
    /// `declared I`: the type of the variable of this token.
    Declared,
    /// `notes I J`: the variable (`l` of a function, `g` of all), the offset (`+`), the called function (`f`) and whether there is a type (`t`), of each token
    /// from I up to J.
    Notes,
    /// `scope P I`: whether token I is in the scope of the variable that was declared as the P-th.
    Scope,
    /// `definitions`: of each, its function, its first local among all variables, and how many it has.
    Definitions,
    /// `sites S`: each with its function, line and token, and what it looks at.
    Sites,
    /// `numbers S`: how many sites, predicates and functions there are.
    Numbers,
    /// `ends`: how the plain program ends, and `after` what output. The one that observes each visit of all schemes and the sampled one, with each visit drawn
    /// and with one in a thousand, come to the same; where each visit is drawn they count the same. So do the programs with a part of the sites, of 1, 2,
    /// 3 and 7
    /// parts: of their sites they count what the others count.
    Ends,
    /// `fills`: how the plain program ends, and how many bytes it writes.
    Fills,
    /// `full S`: how the program ends that observes each visit, its work, and the counters above zero.
    Full,
    /// `sampled S N ..`: the same of the sampled program, with this bank of countdowns.
    Sampled,
    /// `compiled S`: how many sites the program has that observes each visit.
    Compiled,
}

/// What stands behind a question's word.
#[derive(Debug, Clone, Copy)]
enum Behind {
    Nothing,
    Number,
    TwoNumbers,
    Schemes,
    SchemesAndBank,
}

const ASKS: [(&str, Ask, Behind); 17] = [
    ("tokens", Ask::Tokens, Behind::Nothing),
    ("length", Ask::Length, Behind::Nothing),
    ("line", Ask::Line, Behind::Number),
    ("tree", Ask::Tree, Behind::Nothing),
    ("types", Ask::Types, Behind::Nothing),
    ("type", Ask::Type, Behind::Number),
    ("declared", Ask::Declared, Behind::Number),
    ("notes", Ask::Notes, Behind::TwoNumbers),
    ("scope", Ask::Scope, Behind::TwoNumbers),
    ("definitions", Ask::Definitions, Behind::Nothing),
    ("sites", Ask::Sites, Behind::Schemes),
    ("numbers", Ask::Numbers, Behind::Schemes),
    ("ends", Ask::Ends, Behind::Nothing),
    ("fills", Ask::Fills, Behind::Nothing),
    ("full", Ask::Full, Behind::Schemes),
    ("sampled", Ask::Sampled, Behind::SchemesAndBank),
    ("compiled", Ask::Compiled, Behind::Schemes),
];

/// Whether these are letters of schemes.
fn are_schemes(letters: &str) -> bool {
    for letter in letters.as_bytes() {
        if !matches!(*letter, b'-' | b'b' | b'r' | b'p') {
            return false;
        }
    }
    !letters.is_empty()
}

/// The number of this word.
pub(crate) fn number_of(word: &str) -> usize {
    word.parse::<usize>().unwrap_or(usize::MAX)
}

fn is_number(word: &str) -> bool {
    word.parse::<usize>().is_ok()
}

/// The two numbers of these words.
pub(crate) fn two_of(words: &str) -> (usize, usize) {
    let (first, second) = words.split_once(' ').unwrap_or((words, ""));
    (number_of(first), number_of(second))
}

/// Whether this may stand behind a question's word.
fn fits(behind: Behind, rest: &str) -> bool {
    let (first, more) = rest.split_once(' ').unwrap_or((rest, ""));
    match behind {
        Behind::Nothing => rest.is_empty(),
        Behind::Number => is_number(rest),
        Behind::TwoNumbers => is_number(first) && is_number(more),
        Behind::Schemes => are_schemes(rest),
        Behind::SchemesAndBank => are_schemes(first) && are_numbers(more),
    }
}

/// The question of these words, if they are one, and what stands behind its word.
pub(crate) fn ask_of(words: &str) -> Option<(Ask, &str)> {
    let (head, rest) = words.split_once(' ').unwrap_or((words, ""));
    for (word, ask, behind) in ASKS {
        if word == head && fits(behind, rest) {
            return Some((ask, rest));
        }
    }
    None
}
