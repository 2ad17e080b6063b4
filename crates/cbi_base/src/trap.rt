ghost use Rattle.std.specs.Prelude.{◌≡◌};
ghost use Rattle.cbi_base.specs.Trap.{trap_number};

/// Why a run was stopped. `Internal` is none of the language: it shows a hand-written program file that is wrong.
#[derive(Clone, Copy, Debug, PartialEq, Eq)]
pub enum Trap {
    Overflow,
    Divide,
    Shift,
    Undefined,
    WrongKind,
    Bounds,
    Dead,
    NullUse,
    ReadOnly,
    BadFree,
    Unrelated,
    StackOverflow,
    Assertion,
    Abort,
    Internal,
}

impl Trap {
    /// The number that reports and messages show.
    pub fn number(&self) -> u8
        ensures { result ≡ trap_number self.now }
    {
        match self {
            Trap::Overflow => 1,
            Trap::Divide => 2,
            Trap::Shift => 3,
            Trap::Undefined => 4,
            Trap::WrongKind => 5,
            Trap::Bounds => 6,
            Trap::Dead => 7,
            Trap::NullUse => 8,
            Trap::ReadOnly => 9,
            Trap::BadFree => 10,
            Trap::Unrelated => 11,
            Trap::StackOverflow => 12,
            Trap::Assertion => 13,
            Trap::Abort => 14,
            Trap::Internal => 99,
        }
    }
}
