ghost use Rattle.std.specs.Prelude.{◌≡◌};
ghost use Rattle.c_types_rules.specs.Faults.{fault_number};

/// A kind of fault of types, in the order of their numbers.
#[derive(Clone, Copy, Debug, PartialEq, Eq)]
pub enum FaultKind {
    /// A name, member or tag that isn't known; a missing parameter name.
    Unknown,
    /// Declared twice, or otherwise than before; a library name declared as a variable, parameter or function.
    Redeclared,
    /// Operands that don't fit; a function's name that isn't called; a variable that is called.
    Operands,
    NoPlace,
    /// A call's arguments; the form of a `printf`, or one that isn't the whole expression of a statement.
    Arguments,
    /// An object of incomplete or void type, too large, or with a wrong bound; a parameter or result of struct type.
    Object,
    Initialiser,
    /// `break` or `continue` outside a loop; a `return` with a value in a void function, or without one in another.
    Jump,
    NoMain,
    /// A called function without definition.
    NoDefinition,
}

impl FaultKind {
    /// The number of the kind, from 1.
    pub fn number(&self) -> u8
        ensures { result ≡ fault_number self.now }
    {
        match self {
            FaultKind::Unknown => 1,
            FaultKind::Redeclared => 2,
            FaultKind::Operands => 3,
            FaultKind::NoPlace => 4,
            FaultKind::Arguments => 5,
            FaultKind::Object => 6,
            FaultKind::Initialiser => 7,
            FaultKind::Jump => 8,
            FaultKind::NoMain => 9,
            FaultKind::NoDefinition => 10,
        }
    }
}
