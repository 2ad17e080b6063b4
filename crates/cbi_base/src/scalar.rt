/// The arithmetic types: `char` has 8 bits and a sign, `int` and `unsigned` have 32 bits.
#[derive(Clone, Copy, Debug, PartialEq, Eq)]
pub enum Kind {
    Char,
    Int,
    Unsigned,
}

/// What a cell or an operand holds. A number lies in its kind's range.
#[derive(Clone, Copy, Debug, PartialEq, Eq)]
pub enum Scalar {
    Number { kind: Kind, value: i64 },
    /// A pointer: the number of an object, and an offset into it in cells.
    Place { object: u64, offset: u32 },
    Null,
    Undefined,
}

/// What an object is: a variable of a function, a global, a string or text, or memory of `malloc`.
#[derive(Clone, Copy, Debug, PartialEq, Eq)]
pub enum Class {
    Local,
    Static,
    Text,
    Heap,
}

/// What a load wants to find.
#[derive(Clone, Copy, Debug, PartialEq, Eq)]
pub enum Want {
    Number { kind: Kind },
    Pointer,
}
