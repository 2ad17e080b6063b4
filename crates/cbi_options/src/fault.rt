ghost use Rattle.std.specs.Prelude.{◌≡◌};

use cbi_base::Memory;

/// What is wrong with words.
#[derive(Clone, Copy, Debug)]
pub enum Fault {
    /// They break the rule, or give what the command hasn't, or don't give what it wants.
    Usage,
    /// The value of this option is not spelled as it should be.
    BadValue { option: &'static str },
    Memory,
}

impl From<Memory> for Fault {
    ghost use Rattle.cbi_options.specs.declared.fault.Fault.TheVariants as fault;

    ghost from_gives = { λ _ e. e ≡ fault.Memory };

    fn from(_e: Memory) -> Fault {
        Fault::Memory
    }
}
