ghost use Rattle.std.specs.Prelude.{◌≡◌, Some, is_ok};
ghost use Rattle.cbi_options.specs.Answers.{ReadAs};
ghost use Rattle.cbi_options.specs.Values.{is_taken_if_given, is_mode, is_schemes};
ghost use Rattle.cbi_options.specs.Options.{value_of};
ghost use Rattle.cbi_options.specs.Schemes.{all_schemes, mode_of, names_in, schemes_in, schemes_or, with_scheme, with_schemes};

use crate::fault::Fault;
use crate::given::Given;
use flow::Schemes;

/// What a text is compiled to.
#[derive(Clone, Copy, Debug, PartialEq, Eq)]
pub enum Mode {
    /// A program without sites.
    Plain,
    /// One that looks at each visit of a site.
    Full,
    /// One that looks at the visits that a bank samples.
    Sampled,
}

// The mode that a value names.
fn mode_of(value: &str) -> Option<Mode>
    ensures { result ≡ mode_of value.now }
{
    if value == "plain" {
        return Some(Mode::Plain);
    }
    if value == "full" {
        return Some(Mode::Full);
    }
    if value == "sampled" {
        return Some(Mode::Sampled);
    }
    None
}

/// The mode that an option's value names.
pub fn mode_in(option: &'static str, value: &str) -> Result<Mode, Fault>
    ensures reads { ReadAs result (mode_of value.now) (Some option.entry.now) }
    ensures takes { is_ok result ≡ is_mode value.now }
{
    match mode_of(value) {
        Some(mode) => Ok(mode),
        None => Err(Fault::BadValue { option }),
    }
}

// The schemes with one more; None where the name is that of none, or of one that is there.
fn with_scheme(name: &str, schemes: Schemes) -> Option<Schemes>
    ensures { result ≡ with_scheme name.now schemes }
{
    let Schemes {
        branches,
        returns,
        pairs,
    } = schemes;
    if name == "branches" && !branches {
        return Some(Schemes {
            branches: true,
            returns,
            pairs,
        });
    }
    if name == "returns" && !returns {
        return Some(Schemes {
            branches,
            returns: true,
            pairs,
        });
    }
    if name == "pairs" && !pairs {
        return Some(Schemes {
            branches,
            returns,
            pairs: true,
        });
    }
    None
}

// The schemes with those of a list of names.
fn with_schemes(list: &str, schemes: Schemes) -> Option<Schemes>
    ensures { result ≡ with_schemes (names_in list.now) schemes }
{
    match list.split_once(',') {
        None => with_scheme(list, schemes),
        Some((name, others)) => {
            let schemes = with_scheme(name, schemes)?;
            with_schemes(others, schemes)
        }
    }
}

// The schemes that a value lists.
fn schemes_of(value: &str) -> Option<Schemes>
    ensures { result ≡ schemes_in value.now }
{
    let none = Schemes {
        branches: false,
        returns: false,
        pairs: false,
    };
    with_schemes(value, none)
}

/// The schemes that an option lists, or all of them where it isn't given.
pub fn schemes_or(given: &Given, option: &'static str) -> Result<Schemes, Fault>
    ensures reads { ReadAs result (schemes_or all_schemes (value_of option.entry.now given.now.options)) (Some option.entry.now) }
    ensures fits { is_ok result ≡ is_taken_if_given is_schemes (value_of option.entry.now given.now.options) }
{
    match given.value_of(option) {
        None => Ok(Schemes {
            branches: true,
            returns: true,
            pairs: true,
        }),
        Some(value) => match schemes_of(value) {
            Some(schemes) => Ok(schemes),
            None => Err(Fault::BadValue { option }),
        },
    }
}
