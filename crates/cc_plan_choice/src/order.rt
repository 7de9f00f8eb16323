//! Slots and fields in order of their numbers, among which they are found quickly.

ghost use Rattle.std.specs.Prelude.{◌≡◌, IfOk, IsPermutation, IsSorted};
ghost use Rattle.std.specs.Ordering.{nat_cmp};
ghost use Rattle.cc_plan_legal.specs.Legality.{is_among as is_among_of};
ghost use Rattle.cc_plan_legal.specs.Plans.{slots_of as slots_of_fields};

use cc_bins::Field;
use cc_program::num::NoMemory;
use std::alloc::Global;

/// Slots in order.
pub(crate) fn in_order(alloc: Global, slots: &[u32]) -> Result<Vec<u32>, NoMemory>
    ensures permuted { IfOk result (λ order. IsPermutation slots.now order.items) }
    ensures sorted { IfOk result (λ order. IsSorted nat_cmp order.items) }
{
    let mut order = Vec::from_slice(alloc, slots)?;
    order.sort_unstable();
    Ok(order)
}

/// Fields in order of their slots.
pub(crate) fn by_slot(alloc: Global, fields: &[Field]) -> Result<Vec<Field>, NoMemory>
    ensures permuted { IfOk result (λ order. IsPermutation fields.now order.items) }
    ensures sorted { IfOk result (λ order. IsSorted (λ x y. nat_cmp x.slot y.slot) order.items) }
{
    let mut order = Vec::from_slice(alloc, fields)?;
    order.sort_by_key(|field| field.slot)?;
    Ok(order)
}

/// The slots of fields that are in order.
pub(crate) fn slots_of(alloc: Global, fields: &[Field]) -> Result<Vec<u32>, NoMemory>
    requires { IsSorted (λ x y. nat_cmp x.slot y.slot) fields.now }
    ensures slots { IfOk result (λ slots. slots.items ≡ slots_of_fields fields.now) }
    ensures sorted { IfOk result (λ slots. IsSorted nat_cmp slots.items) }
{
    let mut slots = Vec::new(alloc);
    for field in fields {
        slots.push(field.slot)?;
    }
    Ok(slots)
}

/// Whether a slot is among others that are in order.
pub(crate) fn is_among(slots: &[u32], slot: u32) -> bool
    requires { IsSorted nat_cmp slots.now }
    ensures { result ≡ is_among_of slots.now slot }
{
    slots.binary_search(&slot).is_ok()
}
