ghost use Rattle.std.specs.Prelude.{◌≡◌, IfOk};
ghost use Rattle.std.specs.Option.{option_map};
ghost use Rattle.cbi_base.specs.Scalars.{IsInRange, converted_number, truth_of, sign_of};
ghost use Rattle.c_values.specs.Relation.{relation_of};

use crate::range::wrap;
use crate::relation::{Relation, relate};
use cbi_base::{Kind, Scalar, Trap};

/// A number of any kind converted to this one (C99 6.3.1.3). Undefined is trap Undefined, any other value trap Internal.
#[tactic(auto, unfolding(cbi_base::specs::Scalars::converted_number))]
pub fn convert(kind: Kind, value: Scalar) -> Result<Scalar, Trap>
    ensures value { result ≡ converted_number kind value }
    ensures in_range { IfOk result IsInRange }
{
    match value {
        Scalar::Undefined => Err(Trap::Undefined),
        Scalar::Number { value, .. } => Ok(Scalar::Number {
            kind,
            value: wrap(kind, value),
        }),
        Scalar::Place { .. } | Scalar::Null => Err(Trap::Internal),
    }
}

/// Whether a value counts as true: zero and null are false. Trap Undefined exactly for Undefined.
pub fn truth(value: Scalar) -> Result<bool, Trap>
    ensures { result ≡ truth_of value }
{
    match value {
        Scalar::Number { value, .. } => Ok(value != 0),
        Scalar::Place { .. } => Ok(true),
        Scalar::Null => Ok(false),
        Scalar::Undefined => Err(Trap::Undefined),
    }
}

/// How a value stands to zero: null as zero, a place above it. None exactly for Undefined.
pub fn sign(value: Scalar) -> Option<Relation>
    ensures { result ≡ option_map relation_of (sign_of value) }
{
    match value {
        Scalar::Number { value, .. } => Some(relate(value, 0)),
        Scalar::Place { .. } => Some(Relation::Greater),
        Scalar::Null => Some(Relation::Equal),
        Scalar::Undefined => None,
    }
}
