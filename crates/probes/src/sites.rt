ghost use Rattle.std.specs.Prelude.{◌≡◌, [], ◌++◌, IfOk, OnOk};
ghost use Rattle.probes.specs.Sites.{number_field, sites_line};

use cbi_base::{Memory, push_decimal};
use std::alloc::Global;

/// How many sites a line lists at most.
pub const MOST_SITES: usize = 16;

/// Appends a space and a number.
pub fn push_number(line: &mut Vec<u8>, number: u128) -> Result<(), Memory>
    ensures ok { OnOk result (line.new.items ≡ line.old.items ++ number_field number) }
{
    line.push(b' ')?;
    push_decimal(line, number)
}

/// The line that begins with this word and lists these sites.
pub fn sites_line(alloc: Global, word: &[u8], sites: &[u32]) -> Result<Vec<u8>, Memory>
    ensures { IfOk result (λ line. line.items ≡ sites_line word.now sites.now) }
{
    let mut line = Vec::from_slice(alloc, word)?;
    if sites.is_empty() {
        line.extend_from_slice(b" none".as_slice())?;
    }
    for site in sites {
        push_number(&mut line, u128::from(*site))?;
    }
    line.push(b'\n')?;
    Ok(line)
}
