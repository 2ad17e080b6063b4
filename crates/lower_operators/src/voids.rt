ghost use Rattle.std.specs.Prelude.{◌≡◌};
ghost use Rattle.lower_operators.specs.Voids.{is_value_taken, is_void_value};

use c_meaning::ValueType;
use lower_nodes::Purpose;

/// Whether the type is `void`.
pub fn is_void(of: Option<ValueType>) -> bool
    ensures { result ≡ is_void_value of }
{
    matches!(of, Some(ValueType::Void))
}

/// Whether something takes the value, or its truth.
pub fn is_taken(purpose: Purpose) -> bool
    ensures { result ≡ is_value_taken purpose }
{
    match purpose {
        Purpose::Effect { .. } => false,
        Purpose::Value { .. } | Purpose::Truth { .. } => true,
    }
}
