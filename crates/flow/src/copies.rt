ghost use Rattle.std.specs.Prelude.{◌≡◌, IfOk};

use cbi_base::{Memory, Seq};
use std::alloc::Global as Heap;

/// A copy of numbers.
pub fn copy_of<T: Copy>(alloc: Heap, items: &[T]) -> Result<Seq<T>, Memory>
    ensures { IfOk result (λ s. s ≡ items.now) }
{
    let copy = Vec::from_slice(alloc, items)?;
    Ok(Seq::from_vec(copy))
}
