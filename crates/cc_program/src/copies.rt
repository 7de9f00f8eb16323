//! Copies of what a program is made of.

ghost use Rattle.std.specs.Prelude.{◌≡◌, IfOk};

use cc_num::{List, NoMemory};
use std::alloc::Global;

/// A list with the same elements.
pub fn copy_list<T: Copy>(alloc: Global, list: &List<T>) -> Result<List<T>, NoMemory>
    ensures { IfOk result (λ r. r ≡ list.now) }
{
    Ok(List::of(Vec::from_slice(alloc, list.all())?))
}
