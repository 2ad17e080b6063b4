ghost use Rattle.std.specs.Prelude.{◌≡◌, false, true, Some, MatchOption, IfOk, is_ok};
ghost use Rattle.std.specs.List.{before_first, after_first};
ghost use Rattle.cbi_options.specs.Answers.{ReadAs};
ghost use Rattle.cbi_options.specs.Options.{value_of};
ghost use Rattle.cbi_options.specs.Shares.{has_slash, is_share, is_slash, share_of, share_or};
ghost use Rattle.cbi_options.specs.Values.{is_taken_if_given};
ghost use Rattle.flow.specs.Sites.{MayPart, PartFits};

use crate::fault::Fault;
use crate::given::Given;
use crate::numbers::number_of;
use flow::Part;

// What stands before the first slash, and behind it.
fn halves_of(value: &str) -> Option<(&str, &str)>
    ensures { MatchOption result (has_slash value.now ≡ false)
        (λ halves. (has_slash value.now ≡ true) × (halves.0.now ≡ before_first is_slash value.now) × (halves.1.now ≡ after_first is_slash value.now)) }
{
    value.split_once('/')
}

// The share that a value spells.
fn share_of(value: &str) -> Option<Part>
    ensures value { result ≡ share_of value.now }
    ensures fits { MayPart result }
{
    let Some((index, count)) = halves_of(value) else {
        return None;
    };
    let Some(index) = number_of(index, 65535) else {
        return None;
    };
    let Some(count) = number_of(count, 65536) else {
        return None;
    };
    if index < count {
        Some(Part {
            index: index as u32,
            count: count as u32,
        })
    } else {
        None
    }
}

/// The share that an option's value spells, `I/N`.
pub fn share_in(option: &'static str, value: &str) -> Result<Part, Fault>
    ensures reads { ReadAs result (share_of value.now) (Some option.entry.now) }
    ensures takes { is_ok result ≡ is_share value.now }
    ensures fits { IfOk result PartFits }
{
    match share_of(value) {
        Some(share) => Ok(share),
        None => Err(Fault::BadValue { option }),
    }
}

/// The share that an option gives, where it is given.
pub fn share_or(given: &Given, option: &'static str) -> Result<Option<Part>, Fault>
    ensures reads { ReadAs result (share_or (value_of option.entry.now given.now.options)) (Some option.entry.now) }
    ensures fits { is_ok result ≡ is_taken_if_given is_share (value_of option.entry.now given.now.options) }
    ensures may { IfOk result MayPart }
{
    match given.value_of(option) {
        None => Ok(None),
        Some(value) => {
            let share = share_in(option, value)?;
            Ok(Some(share))
        }
    }
}
