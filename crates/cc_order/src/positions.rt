//! Where numbers stand in a list.

ghost use Rattle.std.specs.Prelude.{◌≡◌, ◌<◌, ◌+◌, ℕ, None, IfOk, length, nat_eq, position, slice_index_or};
ghost use Rattle.cc_order.specs.Places.{with_position};

use cc_num::NoMemory;
use std::alloc::Global;

/// Tells the position of a number, where none is told yet.
fn tell(positions: &mut Vec<Option<u32>>, number: usize, position: u32)
    ensures { positions.new.items ≡ with_position positions.old.items number position }
{
    if number < positions.len() && positions[number].is_none() {
        positions[number] = Some(position);
    }
}

/// The position behind one.
fn next(position: u32) -> Result<u32, NoMemory>
    ensures { IfOk result (λ next. next ≡ position + 1) }
{
    position.checked_add(1).ok_or(NoMemory)
}

/// For each number below a count its first position in a list, where it stands there.
pub fn first_positions(
    alloc: Global,
    count: usize,
    numbers: &[usize],
) -> Result<Vec<Option<u32>>, NoMemory>
    ensures count { IfOk result (λ positions. length positions.items ≡ count) }
    ensures positions { IfOk result (λ positions. (k : ℕ) → k < count → slice_index_or positions.items k None ≡ position (nat_eq k) numbers.now) }
{
    let mut positions: Vec<Option<u32>> = vec![in alloc; None; count]?;
    let mut position: u32 = 0;
    for number in numbers {
        tell(&mut positions, *number, position);
        position = next(position)?;
    }
    Ok(positions)
}
