//! In which lists of a plan a slot stands.

ghost use Rattle.std.specs.Prelude.{◌≡◌, ◌==◌};
ghost use Rattle.std.specs.List.{list_any};
ghost use Rattle.cc_plan_legal.specs.Index.{IsIndex};
ghost use Rattle.cc_plan_legal.specs.Legality.{stands_as as stands_as_of, times as times_of};

use crate::candidate::Form;
use crate::index::{Index, is_among};
use crate::kinds::Plan;

/// Whether a slot has a field.
fn has_field(plan: &Plan, index: &Index, slot: u32) -> bool
    requires { IsIndex plan.now index.now }
    ensures { result ≡ list_any (λ field. field.slot == slot) plan.now.fields }
{
    is_among(index.slots.all(), slot)
}

/// Whether a plan has a slot in the list of those of this form.
pub(crate) fn stands_as(plan: &Plan, index: &Index, slot: u32, form: Form) -> bool
    requires { IsIndex plan.now index.now }
    ensures { result ≡ stands_as_of plan.now slot form }
{
    match form {
        Form::Field => has_field(plan, index, slot),
        Form::Const => is_among(plan.consts.all(), slot),
        Form::Array => is_among(plan.arrays.all(), slot),
    }
}

/// In how many of its lists a plan has a slot.
pub(crate) fn times(plan: &Plan, index: &Index, slot: u32) -> u64
    requires { IsIndex plan.now index.now }
    ensures { result ≡ times_of plan.now slot }
{
    u64::from(stands_as(plan, index, slot, Form::Field))
        + u64::from(stands_as(plan, index, slot, Form::Const))
        + u64::from(stands_as(plan, index, slot, Form::Array))
        + u64::from(is_among(plan.budget.all(), slot))
        + u64::from(is_among(plan.dissolved.all(), slot))
}
