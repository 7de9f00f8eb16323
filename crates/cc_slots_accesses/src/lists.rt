//! Lists of accesses, one for each key.

ghost use Rattle.std.specs.Prelude.{◌≡◌, ◌<◌, [], length, slice_set, slice_index_or, OnOk};
ghost use Rattle.cc_slots_accesses.specs.Puts.{ends_at as ends_at_of, put_behind};

use crate::access::Access;
use cc_program::num::{List, NoMemory, at};
use std::alloc::Global;
use std::mem;

/// Whether the last of some accesses is at a point.
fn ends_at(list: &[Access], point: u32) -> bool
    ensures { result ≡ ends_at_of list.now point }
{
    if list.is_empty() {
        return false;
    }
    match at(list, list.len() - 1) {
        None => false,
        Some(access) => access.point == point,
    }
}

/// Puts an access behind those of a key, by the number of that, where none of its point is there.
pub(crate) fn put(
    alloc: Global,
    lists: &mut [List<Access>],
    number: usize,
    access: Access,
) -> Result<(), NoMemory>
    requires { number < length lists.old }
    ensures { OnOk result (lists.new ≡ slice_set lists.old number (put_behind (slice_index_or lists.old number []) access)) }
{
    if ends_at(lists[number].all(), access.point) {
        return Ok(());
    }
    let list = mem::replace(&mut lists[number], List::of(Vec::new(alloc)));
    let mut items = list.into_vec();
    items.push(access)?;
    lists[number] = List::of(items);
    Ok(())
}
