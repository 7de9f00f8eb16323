//! The type of plans.

ghost use Rattle.std.specs.Prelude.{IsTrue};
ghost use Rattle.cc_plan_legal.specs.Plans.{ascends, slots_of, are_in, are_used};

use cc_bins::{Field, Word};
use cc_program::num::List;

/// Which slots are coded, and how; each list ascends by slot.
#[derive(Drop)]
pub struct Plan {
    /// Where the slots stand that share words.
    pub fields: List<Field>,
    /// The slots that have one value alone.
    pub consts: List<u32>,
    /// The arrays whose elements are packed.
    pub arrays: List<u32>,
    pub words: List<Word>,
    /// The slots that are left, since budgets do not reach for them.
    pub budget: List<u32>,
    /// The slots that are left, since a word for them would save nothing.
    pub dissolved: List<u32>,
    pub ghost fields_ascend: { IsTrue (ascends (slots_of fields)) },
    pub ghost consts_ascend: { IsTrue (ascends consts) },
    pub ghost arrays_ascend: { IsTrue (ascends arrays) },
    pub ghost budget_ascends: { IsTrue (ascends budget) },
    pub ghost dissolved_ascend: { IsTrue (ascends dissolved) },
    pub ghost words_are_there: { IsTrue (are_in words fields) },
    pub ghost words_are_used: { IsTrue (are_used 0 words fields) },
}
