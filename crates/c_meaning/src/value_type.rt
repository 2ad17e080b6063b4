ghost use Rattle.std.specs.Prelude.{◌≡◌};
ghost use Rattle.c_meaning.specs.Conversions.{as_used, is_pointer_value};

use c_types_rules::Library;
use cbi_base::Kind;

/// What a type is where values are computed. A pointer has the size in cells of what it points to, and an array that of its elements; it
/// is 0 where that is no object type.
#[derive(Clone, Copy, Debug)]
pub enum ValueType {
    Void,
    Number { kind: Kind },
    Pointer { size: u32 },
    Array { size: u32 },
    Struct,
}

/// What a call calls: a defined function by its number, or one of the library.
#[derive(Clone, Copy, Debug)]
pub enum Called {
    Function { number: u32 },
    Library { function: Library },
    Unknown,
}

/// The type of a value that is used: an array is a pointer to its first element.
pub fn as_used(of: Option<ValueType>) -> Option<ValueType>
    ensures { result ≡ as_used of }
{
    match of {
        Some(ValueType::Array { size }) => Some(ValueType::Pointer { size }),
        other => other,
    }
}

/// Whether a value of the type is a pointer.
pub fn is_pointer(of: Option<ValueType>) -> bool
    ensures { result ≡ is_pointer_value of }
{
    matches!(
        of,
        Some(ValueType::Pointer { .. }) | Some(ValueType::Array { .. })
    )
}
