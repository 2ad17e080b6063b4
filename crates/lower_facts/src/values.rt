ghost use Rattle.std.specs.Prelude.{◌≡◌};
ghost use Rattle.c_types_rules.specs.Plain.{plain_type};
ghost use Rattle.c_meaning.specs.Known.{computed_type, element_cells, element_type, object_cells};

use c_meaning::ValueType;
use c_types_rules::{CType, StructType, cells_of, is_object};
use cbi_base::Kind;

/// How many cells an object of the type has, where it has any.
pub(crate) fn object_cells(structs: &[StructType], ctype: &CType) -> Option<u32>
    ensures { result ≡ object_cells structs.now (plain_type ctype.now) }
{
    if is_object(structs, ctype) {
        Some(cells_of(structs, ctype))
    } else {
        None
    }
}

/// How many cells an element of the type has, or 0 where it is no object type.
fn element_cells(structs: &[StructType], ctype: &CType) -> u32
    ensures { result ≡ element_cells structs.now (plain_type ctype.now) }
{
    object_cells(structs, ctype).unwrap_or(0)
}

/// What the type is where values are computed.
pub fn value_type(structs: &[StructType], ctype: &CType) -> ValueType
    ensures { result ≡ computed_type structs.now (plain_type ctype.now) }
{
    match ctype {
        CType::Void => ValueType::Void,
        CType::Char => ValueType::Number { kind: Kind::Char },
        CType::Int => ValueType::Number { kind: Kind::Int },
        CType::Unsigned => ValueType::Number {
            kind: Kind::Unsigned,
        },
        CType::Pointer { to } => ValueType::Pointer {
            size: element_cells(structs, to),
        },
        CType::Array { of, .. } => ValueType::Array {
            size: element_cells(structs, of),
        },
        CType::Struct { .. } => ValueType::Struct,
    }
}

/// The type of an array's elements.
pub fn element_type(structs: &[StructType], ctype: &CType) -> Option<ValueType>
    ensures { result ≡ element_type structs.now (plain_type ctype.now) }
{
    match ctype {
        CType::Array { of, .. } => Some(value_type(structs, of)),
        CType::Void | CType::Char | CType::Int | CType::Unsigned => None,
        CType::Pointer { .. } | CType::Struct { .. } => None,
    }
}
