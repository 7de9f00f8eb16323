//! The numbers of structures: those that are only named come first, the others follow in the order of their closing
//! braces.

ghost use Rattle.std.specs.Prelude.{◌≡◌, ◌++◌, ℕ, IfOk, OnOk, length, slice_index};
ghost use Rattle.cc_numbering.specs.Numbers.{unless, order_of, places_from};
ghost use Rattle.cc_scopes.specs.View.{state_of};

use cc_program::num::NoMemory;
use cc_scopes::State;
use std::alloc::Global;

/// Puts a number behind others, unless what has it is complete.
fn put_open(i: usize, complete: bool, numbers: &mut Vec<u32>) -> Result<(), NoMemory>
    ensures { OnOk result (numbers.new.items ≡ numbers.old.items ++ unless complete i) }
{
    if complete {
        return Ok(());
    }
    let Ok(i) = u32::try_from(i) else {
        return Err(NoMemory);
    };
    numbers.push(i)?;
    Ok(())
}

/// The structures in the order of the unit, by the numbers that they have while it is read.
#[tactic(auto, using(crate::proofs::Order::of_order), unfolding(cc_scopes::specs::View::state_of, cc_scopes::specs::View::known_of))]
pub fn order(alloc: Global, state: &State) -> Result<Vec<u32>, NoMemory>
    ensures { IfOk result (λ r. r.items ≡ order_of (state_of state.now)) }
{
    let mut order = Vec::new(alloc);
    let standings = state.structures.standings.as_slice();
    for (i, standing) in standings.iter().enumerate() {
        put_open(i, standing.complete, &mut order)?;
    }
    order.extend_from_slice(state.structures.completed.as_slice())?;
    Ok(order)
}

/// A table of so many zeros.
fn zeros(alloc: Global, count: usize) -> Result<Vec<u32>, NoMemory>
    ensures { IfOk result (λ r. (length r.items ≡ count) × ((i : ℕ) → slice_index r.items i ≡ 0)) }
{
    Ok(vec![in alloc; 0; count]?)
}

/// The places of so many numbers in an order.
#[tactic(auto, using(crate::proofs::Places::of_places))]
pub fn places(alloc: Global, order: &[u32], count: usize) -> Result<Vec<u32>, NoMemory>
    ensures { IfOk result (λ r. r.items ≡ places_from 0 count order.now) }
{
    let mut places = zeros(alloc, count)?;
    let mut left = order.len();
    while left > 0 {
        left -= 1;
        let Ok(place) = u32::try_from(left) else {
            return Err(NoMemory);
        };
        let i = order[left] as usize;
        if i < places.len() {
            places[i] = place;
        }
    }
    Ok(places)
}
