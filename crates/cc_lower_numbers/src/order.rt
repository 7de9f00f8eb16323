//! Numbers in a new order, and where each stands there.

ghost use Rattle.std.specs.Prelude.{◌≡◌, ◌<◌, ◌++◌, ℕ, Some, None, false, [], ◌∷◌, IfOk, OnOk, filter, fold, length, replicate, slice_get, unwrap_or};
ghost use Rattle.cc_lower_numbers.specs.Order.{is_within, ordered as ordered_of, place_in, place_or, with_one, AreSeen};
ghost use Rattle.cc_names.specs.Names.{numbers_from};

use cc_order::first_positions;
use cc_program::num::{NoMemory, at};
use std::alloc::Global;

/// Puts a number behind an order, where it is within bounds and not seen yet.
#[tactic(auto, using(crate::proofs::Orders::of_seen))]
fn put(
    first: usize,
    number: usize,
    seen: &mut Vec<bool>,
    order: &mut Vec<usize>,
) -> Result<(), NoMemory>
    requires { AreSeen seen.old.items order.old.items }
    ensures seen { OnOk result (AreSeen seen.new.items order.new.items) }
    ensures bound { OnOk result (length seen.new.items ≡ length seen.old.items) }
    ensures order { OnOk result (order.new.items ≡ fold with_one order.old.items (filter (is_within first (length seen.old.items)) (number ∷ []))) }
{
    if first <= number && number < seen.len() && !seen[number] {
        seen[number] = true;
        order.push(number)?;
    }
    Ok(())
}

/// All numbers below a bound, behind others.
#[tactic(auto, using(crate::proofs::Orders::of_numbers))]
fn with_all(numbers: Vec<usize>, end: usize) -> Result<Vec<usize>, NoMemory>
    ensures { IfOk result (λ r. r.items ≡ numbers.items ++ numbers_from 0 end) }
{
    let mut numbers = numbers;
    for number in 0..end {
        numbers.push(number)?;
    }
    Ok(numbers)
}

/// Marks of as many numbers, none of which is seen yet.
#[tactic(auto, using(crate::proofs::Orders::of_marks))]
fn unseen(alloc: Global, count: usize) -> Result<Vec<bool>, NoMemory>
    ensures { IfOk result (λ r. r.items ≡ replicate count false) }
{
    let mut marks = Vec::new(alloc);
    for number in 0..count {
        marks.push(false)?;
    }
    Ok(marks)
}

/// The numbers within bounds: those of a text, in the order in which they first stand there, and the others behind them.
#[tactic(auto, using(crate::proofs::Orders::of_order))]
pub fn ordered(
    alloc: Global,
    first: usize,
    end: usize,
    text: Vec<usize>,
) -> Result<Vec<usize>, NoMemory>
    ensures { IfOk result (λ r. r.items ≡ ordered_of first end text.items) }
{
    let candidates = with_all(text, end)?;
    let mut seen = unseen(alloc, end)?;
    let mut order = Vec::new(alloc);
    let numbers = candidates.as_slice();
    for number in numbers {
        put(first, *number, &mut seen, &mut order)?;
    }
    Ok(order)
}

fn place(first: usize, number: usize, position: Option<u32>) -> Result<u32, NoMemory>
    ensures { IfOk result (λ r. r ≡ place_or first number position) }
{
    let place = match position {
        None => number,
        Some(position) => first.checked_add(position as usize).ok_or(NoMemory)?,
    };
    let Ok(place) = u32::try_from(place) else {
        return Err(NoMemory);
    };
    Ok(place)
}

/// The position that a table tells for a number.
fn told(positions: &[Option<u32>], number: usize) -> Option<u32>
    ensures { result ≡ unwrap_or (slice_get positions.now number) None }
{
    match at(positions, number) {
        None => None,
        Some(position) => *position,
    }
}

/// Of each number below a bound, its place in an order whose first place has a number.
#[tactic(auto, using(crate::proofs::Places::of_places))]
pub fn places(
    alloc: Global,
    first: usize,
    order: &[usize],
    end: usize,
) -> Result<Vec<u32>, NoMemory>
    ensures bound { IfOk result (λ r. length r.items ≡ end) }
    ensures places { IfOk result (λ r. (i : ℕ) → i < end → slice_get r.items i ≡ Some (place_in first order.now i)) }
{
    let positions = first_positions(alloc, end, order)?;
    let mut places = Vec::new(alloc);
    for number in 0..end {
        places.push(place(first, number, told(positions.as_slice(), number))?)?;
    }
    Ok(places)
}
