ghost use Rattle.std.specs.Prelude.{◌≡◌, ◌<◌, [], MatchOption, length, slice_get};
ghost use Rattle.cbi_base.specs.Format.{is_conversion};
ghost use Rattle.c_meaning.specs.Calls.{type_taken};
ghost use Rattle.lower_operators.specs.Passing.{format_types};
ghost use Rattle.lower_operators.specs.Taken.{types_before, wanted_types};

use c_meaning::ValueType;
use cbi_base::Kind;

/// The types that arguments become.
#[derive(Clone, Copy, Debug)]
pub enum Wanted<'a> {
    /// Those of a function's parameters.
    Params { types: &'a [ValueType] },
    /// That of the one argument, where it is known.
    One { of: Option<ValueType> },
    /// Those that the conversions of a format take.
    Format { bytes: &'a [u8] },
}

/// Whether the letter is that of a conversion.
fn is_conversion(letter: u8) -> bool
    ensures { result ≡ is_conversion letter }
{
    matches!(letter, b'd' | b'u' | b'c' | b's')
}

/// The type of the argument that the conversion with this letter takes.
fn type_taken(letter: u8) -> ValueType
    ensures { result ≡ type_taken letter }
{
    match letter {
        b's' => ValueType::Pointer { size: 1 },
        b'u' => ValueType::Number {
            kind: Kind::Unsigned,
        },
        _ => ValueType::Number { kind: Kind::Int },
    }
}

/// The first piece of a format, as the letter of a conversion or none for another byte, and what comes after it.
fn first_piece(format: &[u8]) -> Option<(Option<u8>, &[u8])>
    ensures types { MatchOption result (format_types format.now ≡ []) (λ p. format_types format.now ≡ types_before p.0 (format_types p.1.now)) }
    ensures less { MatchOption result (length format.now ≡ 0) (λ p. length p.1.now < length format.now) }
{
    match format {
        [] => None,
        [_] => Some((None, &format[1..])),
        [b'%', letter, rest @ ..] => {
            if is_conversion(*letter) {
                Some((Some(*letter), rest))
            } else {
                Some((None, rest))
            }
        }
        [_, ..] => Some((None, &format[1..])),
    }
}

/// How many conversions a format has.
pub fn conversion_count(format: &[u8]) -> usize
    ensures { result ≡ length (format_types format.now) }
{
    let mut rest = format;
    let mut count = 0;
    while let Some((letter, behind)) = first_piece(rest) {
        if letter.is_some() {
            count += 1;
        }
        rest = behind;
    }
    count
}

/// The type of the argument that a conversion of a format takes, by the conversion's place among them.
fn type_printed(format: &[u8], place: usize) -> Option<ValueType>
    ensures { result ≡ slice_get (format_types format.now) place }
{
    let mut rest = format;
    let mut left = place;
    while let Some((letter, behind)) = first_piece(rest) {
        if let Some(letter) = letter {
            if left == 0 {
                return Some(type_taken(letter));
            }
            left -= 1;
        }
        rest = behind;
    }
    None
}

/// The type that the argument at the place becomes.
pub fn type_wanted(wanted: Wanted, place: usize) -> Option<ValueType>
    ensures { result ≡ slice_get (wanted_types wanted.entry) place }
{
    match wanted {
        Wanted::Params { types } => match types.get(place) {
            None => None,
            Some(of) => Some(*of),
        },
        Wanted::One { of } => {
            if place == 0 {
                return of;
            }
            None
        }
        Wanted::Format { bytes } => type_printed(bytes, place),
    }
}
