ghost use Rattle.std.specs.Prelude.{◌≡◌, IfOk};
ghost use Rattle.c_types_rules.specs.Functions.{typed_call, same_function};

use crate::assigning::fits_parameters;
use crate::conversions::value_of;
use crate::ctype::{Type, same_type, same_types};
use crate::fault::FaultKind;
use crate::operand::{Looked, Operand};
use cbi_base::{Memory, Seq};
use std::alloc::Global;

/// What a function gives and takes.
#[derive(Debug, Drop)]
pub struct FunctionType {
    pub gives: Type,
    pub params: Seq<Type>,
}

/// Whether two functions have the same type.
pub fn same_function(left: &FunctionType, right: &FunctionType) -> bool
    ensures { result ≡ same_function left.now right.now }
{
    same_type(left.gives.shape(), right.gives.shape())
        && same_types(left.params.as_slice(), right.params.as_slice())
}

/// A call of a function of the type.
pub fn called(
    alloc: Global,
    function: &FunctionType,
    arguments: &[Operand],
) -> Result<Looked, Memory>
    ensures { IfOk result (λ r. r ≡ typed_call function.now arguments.now) }
{
    if !fits_parameters(function.params.as_slice(), arguments) {
        return Ok(Err(FaultKind::Arguments));
    }
    let gives = function.gives.try_clone(alloc)?;
    Ok(Ok(value_of(gives.into_shape())))
}
