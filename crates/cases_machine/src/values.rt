//! Operations on values, by their names and their values' words.
ghost use Rattle.std.specs.Prelude.{IfSome};
ghost use Rattle.cbi_base.specs.Scalars.{IsInRange};

use c_values::{apply_binary, apply_unary, convert, relate, sign, truth};
use cases_rows::Page;
use cbi_base::{Binary, Kind, Scalar, Unary};

fn small(value: i8) -> Scalar
    ensures { IsInRange result }
{
    Scalar::Number {
        kind: Kind::Char,
        value: value as i64,
    }
}

fn int(value: i32) -> Scalar
    ensures { IsInRange result }
{
    Scalar::Number {
        kind: Kind::Int,
        value: value as i64,
    }
}

fn unsigned(value: u32) -> Scalar
    ensures { IsInRange result }
{
    Scalar::Number {
        kind: Kind::Unsigned,
        value: value as i64,
    }
}

/// The number of a word that begins with the letter of its kind.
fn number_in(word: &str) -> Option<Scalar>
    ensures { IfSome result IsInRange }
{
    if let Some(text) = word.strip_prefix('c') {
        return Some(small(text.parse::<i8>().ok()?));
    }
    if let Some(text) = word.strip_prefix('i') {
        return Some(int(text.parse::<i32>().ok()?));
    }
    let text = word.strip_prefix('u')?;
    Some(unsigned(text.parse::<u32>().ok()?))
}

fn scalar_in(word: &str) -> Option<Scalar>
    ensures { IfSome result IsInRange }
{
    match word {
        "null" => Some(Scalar::Null),
        "undefined" => Some(Scalar::Undefined),
        "place" => Some(Scalar::Place {
            object: 3,
            offset: 0,
        }),
        _ => number_in(word),
    }
}

const BINARIES: [(&str, Binary); 16] = [
    ("add", Binary::Add),
    ("sub", Binary::Sub),
    ("mul", Binary::Mul),
    ("div", Binary::Div),
    ("rem", Binary::Rem),
    ("shl", Binary::Shl),
    ("shr", Binary::Shr),
    ("and", Binary::And),
    ("or", Binary::Or),
    ("xor", Binary::Xor),
    ("lt", Binary::Lt),
    ("le", Binary::Le),
    ("gt", Binary::Gt),
    ("ge", Binary::Ge),
    ("eq", Binary::Eq),
    ("ne", Binary::Ne),
];

fn binary_in(word: &str) -> Option<Binary> {
    for (name, operation) in BINARIES {
        if name == word {
            return Some(operation);
        }
    }
    None
}

/// Adds the answer to an operation's word with one value; whether there is one.
fn of_one(word: &str, value: Scalar, came: &mut Page) -> bool
    requires { IsInRange value }
{
    match word {
        "neg" => came.debug(apply_unary(Unary::Neg, value)),
        "com" => came.debug(apply_unary(Unary::Com, value)),
        "not" => came.debug(apply_unary(Unary::Not, value)),
        "char" => came.debug(convert(Kind::Char, value)),
        "int" => came.debug(convert(Kind::Int, value)),
        "unsigned" => came.debug(convert(Kind::Unsigned, value)),
        "truth" => came.debug(truth(value)),
        "sign" => came.debug(sign(value)),
        _ => return false,
    }
    true
}

/// Adds the answer to an operation's word with two values; whether there is one.
fn of_two(word: &str, left: &str, right: &str, came: &mut Page) -> bool {
    let (Some(operation), Some(left), Some(right)) = (
        binary_in(word),
        scalar_in(left),
        scalar_in(right),
    ) else {
        return false;
    };
    came.debug(apply_binary(operation, left, right));
    true
}

/// Adds how two whole numbers stand to one another; whether they are such.
fn related(left: &str, right: &str, came: &mut Page) -> bool {
    let (Ok(left), Ok(right)) = (left.parse::<i64>(), right.parse::<i64>()) else {
        return false;
    };
    came.debug(relate(left, right));
    true
}

/// Adds the answer to a question; whether it is one.
pub fn answer(question: &str, came: &mut Page) -> bool {
    let (word, values) = question.split_once(' ').unwrap_or((question, ""));
    match values.split_once(' ') {
        Some((left, right)) if word == "relate" => related(left, right, came),
        Some((left, right)) => of_two(word, left, right, came),
        None => match scalar_in(values) {
            Some(value) => of_one(word, value, came),
            None => false,
        },
    }
}
