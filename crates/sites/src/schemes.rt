ghost use Rattle.std.specs.Prelude.{◌≡◌};

use cbi_base::Memory;

/// Why a tree has no site table: it has more than 65,536 sites, or memory is wanting.
#[derive(Clone, Copy, Debug, PartialEq, Eq)]
pub enum SiteError {
    TooManySites,
    Memory,
}

impl From<Memory> for SiteError {
    ghost use Rattle.sites.specs.declared.schemes.SiteError.TheVariants as error;

    ghost from_gives = { λ _ e. e ≡ error.Memory };

    fn from(_e: Memory) -> SiteError {
        SiteError::Memory
    }
}
