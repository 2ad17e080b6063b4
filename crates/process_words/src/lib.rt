//! The words of the process, by what std gives of them.
#![tactic(auto)]

ghost use Rattle.std.specs.IoError.{error_kind};
ghost use Rattle.std.specs.Prelude.{◌≡◌, ◌≢◌, Err, IfErr, IfOk};
ghost use Rattle.std.specs.Vec.Iter.{into_iter_items};

use std::alloc::Global;
use std::env::Args;
use std::io::{self, ErrorKind};

/// All that are left, or 7 for want of memory.
fn collected(alloc: Global, left: Args) -> Result<Vec<String>, u8>
    ensures words { IfOk result (λ words. words.items ≡ into_iter_items left) }
    ensures memory { IfErr result (λ status. status ≡ 7) }
{
    match left.collect(alloc) {
        Ok(words) => Ok(words),
        Err(_) => Err(7),
    }
}

/// The words that `env::args` gave, or the status of a process that has none: 7 for want of memory, and 2 where it failed for any other cause, as at a word
/// that is no UTF-8.
pub fn words_given(alloc: Global, given: io::Result<Args>) -> Result<Vec<String>, u8>
    ensures words { IfOk given (λ left. IfOk result (λ words. words.items ≡ into_iter_items left)) }
    ensures copied { IfOk given (λ left. IfErr result (λ status. status ≡ 7)) }
    ensures memory { IfErr given (λ e. error_kind e ≡ ErrorKind.OutOfMemory → result ≡ Err 7) }
    ensures other { IfErr given (λ e. error_kind e ≢ ErrorKind.OutOfMemory → result ≡ Err 2) }
{
    match given {
        Ok(left) => collected(alloc, left),
        Err(e) if e.kind() == ErrorKind::OutOfMemory => Err(7),
        Err(_) => Err(2),
    }
}
