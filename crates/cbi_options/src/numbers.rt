ghost use Rattle.std.specs.Prelude.{◌≡◌, ◌≤◌, Some, IfOk, IfSome, is_ok};
ghost use Rattle.cbi_base.specs.Numbers.{number_of};
ghost use Rattle.cbi_options.specs.Answers.{ReadAs};
ghost use Rattle.cbi_options.specs.Values.{is_taken_if_given, is_number};
ghost use Rattle.cbi_options.specs.Options.{number_or, number_within, value_of};

use crate::fault::Fault;
use crate::given::Given;
use cbi_base::read_decimal;

/// The bounds of a number.
#[derive(Clone, Copy)]
pub struct Bounds {
    pub least: u64,
    pub most: u64,
}

/// The number that a decimal spells, at most `most`.
pub(crate) fn number_of(value: &str, most: u64) -> Option<u64>
    ensures value { result ≡ number_of most value.now }
    ensures most { IfSome result (λ n. n ≤ most) }
{
    read_decimal(value.as_bytes(), most)
}

/// The number that an option's value spells.
pub fn number_in(option: &'static str, value: &str, bounds: Bounds) -> Result<u64, Fault>
    ensures reads { ReadAs result (number_within bounds.least bounds.most value.now) (Some option.entry.now) }
    ensures takes { is_ok result ≡ is_number bounds.least bounds.most value.now }
    ensures least { IfOk result (λ n. bounds.least ≤ n) }
    ensures most { IfOk result (λ n. n ≤ bounds.most) }
{
    match number_of(value, bounds.most) {
        Some(number) if bounds.least <= number => Ok(number),
        _ => Err(Fault::BadValue { option }),
    }
}

/// The number that an option gives, or the default where it isn't given.
pub fn number_or(
    given: &Given,
    option: &'static str,
    default: u64,
    bounds: Bounds,
) -> Result<u64, Fault>
    requires least { bounds.least ≤ default }
    requires most { default ≤ bounds.most }
    ensures reads { ReadAs result (number_or default bounds.least bounds.most (value_of option.entry.now given.now.options)) (Some option.entry.now) }
    ensures fits { is_ok result ≡ is_taken_if_given (is_number bounds.least bounds.most) (value_of option.entry.now given.now.options) }
    ensures least { IfOk result (λ n. bounds.least ≤ n) }
    ensures most { IfOk result (λ n. n ≤ bounds.most) }
{
    match given.value_of(option) {
        None => Ok(default),
        Some(value) => number_in(option, value, bounds),
    }
}
