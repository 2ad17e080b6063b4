ghost use Rattle.std.specs.Prelude.{◌≡◌, Some, is_ok};
ghost use Rattle.cbi_options.specs.Answers.{ReadAs};
ghost use Rattle.cbi_options.specs.Values.{is_taken_if_given, is_policy};
ghost use Rattle.cbi_options.specs.Options.{policy_of, policy_or, value_of};

use crate::fault::Fault;
use crate::given::Given;
use cbi_base::Policy;

// The policy that a value names.
fn policy_of(value: &str) -> Option<Policy>
    ensures { result ≡ policy_of value.now }
{
    if value == "all" {
        return Some(Policy::All);
    }
    if value == "failing" {
        return Some(Policy::Failing);
    }
    if value == "relabel" {
        return Some(Policy::Relabel);
    }
    None
}

/// The policy that an option gives, or the default where it isn't given.
pub fn policy_or(given: &Given, option: &'static str, default: Policy) -> Result<Policy, Fault>
    ensures reads { ReadAs result (policy_or default (value_of option.entry.now given.now.options)) (Some option.entry.now) }
    ensures fits { is_ok result ≡ is_taken_if_given is_policy (value_of option.entry.now given.now.options) }
{
    match given.value_of(option) {
        None => Ok(default),
        Some(value) => match policy_of(value) {
            Some(policy) => Ok(policy),
            None => Err(Fault::BadValue { option }),
        },
    }
}
