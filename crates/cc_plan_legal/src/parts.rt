//! The lists of which a plan is made.

ghost use Rattle.std.specs.Prelude.{◌≡◌, ◌↔◌, false, IfSome, None as NoneOf};
ghost use Rattle.cc_plan_legal.specs.Parts.{is_plan, HasParts};

use crate::kinds::Plan;
use crate::plans::{are_in, are_used, ascend, fields_ascend};
use cc_bins::{Field, Word};
use cc_program::num::List;

/// Lists that may be those of a plan.
#[derive(Drop)]
pub struct Parts {
    pub fields: List<Field>,
    pub consts: List<u32>,
    pub arrays: List<u32>,
    pub words: List<Word>,
    pub budget: List<u32>,
    pub dissolved: List<u32>,
}

impl Parts {
    /// Whether they are those of a plan.
    fn are_of_a_plan(&self) -> bool
        ensures { result ≡ is_plan self.now }
    {
        fields_ascend(self.fields.all())
            && ascend(self.consts.all())
            && ascend(self.arrays.all())
            && ascend(self.budget.all())
            && ascend(self.dissolved.all())
            && are_in(self.words.all(), self.fields.all())
            && are_used(self.words.all(), self.fields.all())
    }

    /// The plan that has these lists. None where no plan has them.
    pub fn into_plan(self) -> Option<Plan>
        ensures none { (result ≡ NoneOf) ↔ (is_plan self ≡ false) }
        ensures plan { IfSome result (HasParts self) }
    {
        if !self.are_of_a_plan() {
            return None;
        }
        let Parts {
            fields,
            consts,
            arrays,
            words,
            budget,
            dissolved,
        } = self;
        Some(Plan {
            fields,
            consts,
            arrays,
            words,
            budget,
            dissolved,
        })
    }
}
