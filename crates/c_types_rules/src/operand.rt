use crate::ctype::Type;
use crate::fault::FaultKind;

/// What an expression is to the construct around it: its type before an array becomes a pointer, and whether it is a place
/// or a null constant.
#[derive(Debug, Drop)]
pub struct Operand {
    pub ctype: Type,
    pub place: bool,
    pub null: bool,
}

/// What a rule answers: the operand that the construct is, or the least kind of the faults that fit.
pub type Looked = Result<Operand, FaultKind>;
