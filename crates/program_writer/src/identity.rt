ghost use Rattle.std.specs.Prelude.{◌≡◌};
ghost use Rattle.sha2.specs.Sha256.{sha256};

use cbi_base::ProgramId;
use sha2::{Digest, Sha256};

/// The identity of a program with this text: its SHA-256 (FIPS 180-4).
pub fn program_id(bytes: &[u8]) -> ProgramId
    ensures { result.bytes ≡ sha256 bytes.now }
{
    ProgramId {
        bytes: Sha256::digest(bytes),
    }
}
