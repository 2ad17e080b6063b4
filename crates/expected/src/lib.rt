//! Whether the output of a run is as it should be.
#![tactic(auto)]

ghost use Rattle.std.specs.Prelude.{◌≡◌};
ghost use Rattle.expected.specs.Expected.{is_expected_output};

use cbi_base::Seq;

/// The most bytes of a file that an output can equal.
pub const EXPECT_LIMIT: u64 = 16777216;

/// Whether the output is as it should be: it equals the bytes read of the file that it is to equal, where one is given. A file that is too large,
/// of more than 16,777,216 bytes, equals no output.
pub fn agrees(expect: &Option<Seq<u8>>, output: &[u8]) -> bool
    ensures { result ≡ is_expected_output expect.now output.now }
{
    match expect {
        None => true,
        Some(bytes) => bytes.len() as u64 <= EXPECT_LIMIT && bytes.as_slice() == output,
    }
}
