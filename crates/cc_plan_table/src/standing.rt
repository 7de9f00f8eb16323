//! Where slots stand in a plan.

ghost use Rattle.std.specs.Prelude.{◌≡◌, None as NoneOf};
ghost use Rattle.cc_plan_legal.specs.Index.{IsIndex};
ghost use Rattle.cc_plan_legal.specs.Legality.{field_of as field_of_slot};
ghost use Rattle.cc_plan_table.specs.Standings.{is_coded as is_coded_standing, standing_of};

use cc_bins::Field;
use cc_plan_legal::kinds::Plan;
use cc_plan_legal::{Index, field_of, is_among};

/// Where a slot stands in a plan.
#[derive(Clone, Copy)]
pub(crate) enum Standing {
    /// It shares a word.
    InWord(Field),
    /// It has one value alone.
    AsConst,
    /// It is an array whose elements are packed.
    AsArray,
    /// It is left, since budgets do not reach for it.
    BeyondBudget,
    /// It is left, since a word for it would save nothing.
    Dissolved,
    Nowhere,
}

impl Standing {
    /// Whether the slot is coded.
    pub fn is_coded(self) -> bool
        ensures { result ≡ is_coded_standing self }
    {
        matches!(
            self,
            Standing::InWord(_) | Standing::AsConst | Standing::AsArray
        )
    }
}

/// Where a slot without a field stands.
#[tactic(auto, unfolding(crate::specs::Standings::standing_of))]
fn standing_without_field(plan: &Plan, slot: u32) -> Standing
    requires { field_of_slot plan.now.fields slot ≡ NoneOf }
    ensures { result ≡ standing_of plan.now slot }
{
    if is_among(plan.consts.all(), slot) {
        Standing::AsConst
    } else if is_among(plan.arrays.all(), slot) {
        Standing::AsArray
    } else if is_among(plan.budget.all(), slot) {
        Standing::BeyondBudget
    } else if is_among(plan.dissolved.all(), slot) {
        Standing::Dissolved
    } else {
        Standing::Nowhere
    }
}

/// Where a slot stands.
#[tactic(auto, unfolding(crate::specs::Standings::standing_of))]
pub(crate) fn standing_in(plan: &Plan, index: &Index, slot: u32) -> Standing
    requires { IsIndex plan.now index.now }
    ensures { result ≡ standing_of plan.now slot }
{
    match field_of(plan, index, slot) {
        Some(field) => Standing::InWord(field),
        None => standing_without_field(plan, slot),
    }
}
