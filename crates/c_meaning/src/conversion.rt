ghost use Rattle.std.specs.Prelude.{◌≡◌};
ghost use Rattle.c_meaning.specs.Conversions.{kind_conversion, conversion};

use crate::value_type::{ValueType, as_used};
use cbi_base::Kind;

/// What becomes of a value where one of another type is wanted: it is kept, it is converted to a kind, or nothing fits.
#[derive(Clone, Copy, Debug, PartialEq, Eq)]
pub enum Conversion {
    Keep,
    To { kind: Kind },
    Misfit,
}

/// A number of one kind where one of another kind is wanted.
pub fn between(have: Kind, want: Kind) -> Conversion
    ensures { result ≡ kind_conversion have want }
{
    match (have, want) {
        (Kind::Char, Kind::Char) | (Kind::Int, Kind::Int) | (Kind::Unsigned, Kind::Unsigned) => {
            Conversion::Keep
        }
        _ => Conversion::To { kind: want },
    }
}

/// A value of one type where one of another type is wanted, as by assignment.
pub fn conversion_of(have: Option<ValueType>, want: Option<ValueType>) -> Conversion
    ensures { result ≡ conversion have want }
{
    match (as_used(have), want) {
        (Some(ValueType::Number { kind }), Some(ValueType::Number { kind: other })) => {
            between(kind, other)
        }
        (Some(ValueType::Pointer { .. }), Some(ValueType::Pointer { .. })) => Conversion::Keep,
        _ => Conversion::Misfit,
    }
}
