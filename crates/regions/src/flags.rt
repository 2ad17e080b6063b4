ghost use Rattle.std.specs.Prelude.{◌≡◌};
ghost use Rattle.regions.specs.Flags.{is_in};

/// Whether the number's flag is set. A number without a flag isn't in the set.
pub fn is_in(flags: &[bool], number: u32) -> bool
    ensures { result ≡ is_in flags.now number }
{
    flags.get(number as usize).copied().unwrap_or(false)
}
