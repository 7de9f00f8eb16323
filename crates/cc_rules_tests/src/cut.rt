//! What a test leaves of a range, by labels and by the one operand of a comparison.

ghost use Rattle.std.specs.Prelude.{◌≡◌, ℤ, IfOk, true};
ghost use Rattle.std.specs.List.{Contains};
ghost use Rattle.cc_rules_flows.specs.CcLattice.Domains.{IsIntValue, is_comparison};
ghost use Rattle.cc_program.specs.CcNum.declared.op.BinOp.TheVariants as op;
ghost use Rattle.cc_rules_flows.specs.CcPlaces.declared.abs.Abs.TheVariants as abs;
ghost use Rattle.cc_rules_tests.specs.Tested.{IsTested, IsChangedOf, IsValWith, MayHoldAll, IsCutAsIn, IsCutByIn, IsCutByOne, IsPureNumber};
ghost use Rattle.cc_rules_flows.specs.CcStateOperators.Domains.{domain};

use crate::changed::Changed;
use crate::operand::is_operand;
use crate::tested::Tested;
use cc_program::Expr;
use cc_program::num::{BinOp, NoMemory};
use cc_rules_flows::lattice::{IntDomain, copied};
use cc_rules_flows::places::Abs;
use std::alloc::Global;

/// A range without a label.
fn without_label<I: IntDomain>(alloc: Global, x: &I, n: i128) -> I
    requires { IsIntValue n }
    ensures cut { IsCutByOne (domain I.Has I.IsBelow I.OpGives I.OpOneGives I.ToGives I.KeepGives I.members_of) op.Ne n x.now result }
    ensures below { I.IsBelow result x.now }
{
    x.keep(BinOp::Ne, &I::one(alloc, n))
}

/// A range with no number but a label.
pub(crate) fn at_label<I: IntDomain>(alloc: Global, x: &I, n: i128) -> I
    requires { IsIntValue n }
    ensures cut { IsCutByOne (domain I.Has I.IsBelow I.OpGives I.OpOneGives I.ToGives I.KeepGives I.members_of) op.Eq n x.now result }
    ensures below { I.IsBelow result x.now }
{
    x.keep(BinOp::Eq, &I::one(alloc, n))
}

impl<I: IntDomain> Tested<'_, I> {
    /// A range without labels, one after the other.
    pub(crate) fn without_labels(
        &self,
        alloc: Global,
        x: &I,
        labels: &[i128],
    ) -> Result<I, NoMemory>
        requires { (n : ℤ) → Contains labels.now n → IsIntValue n }
        ensures cut { IfOk result (λ z. IsCutByIn (domain I.Has I.IsBelow I.OpGives I.OpOneGives I.ToGives I.KeepGives I.members_of) self.now labels.now x.now z) }
        ensures below { IfOk result (λ z. I.IsBelow z x.now) }
    {
        let mut left = copied(alloc, x)?;
        for n in labels {
            left = without_label(alloc, &left, *n);
        }
        Ok(left)
    }

    /// The numbers that an operand of a comparison may have, where a register has a set.
    fn numbers_with(
        &self,
        alloc: Global,
        changed: &mut Changed<I>,
        r: u32,
        x: &I,
        a: &Expr,
    ) -> Result<I, NoMemory>
        requires tested { IsTested (domain I.Has I.IsBelow I.OpGives I.OpOneGives I.ToGives I.KeepGives I.members_of) self.now }
        requires changed { IsChangedOf self.now.context.now changed.old }
        requires holds { MayHoldAll (domain I.Has I.IsBelow I.OpGives I.OpOneGives I.ToGives I.KeepGives I.members_of) self.now.context.now r x.now }
        requires number { IsPureNumber (domain I.Has I.IsBelow I.OpGives I.OpOneGives I.ToGives I.KeepGives I.members_of) self.now.context.now a.now }
        ensures changed { IsChangedOf self.now.context.now changed.new }
        ensures value { IfOk result (λ w. IsValWith (domain I.Has I.IsBelow I.OpGives I.OpOneGives I.ToGives I.KeepGives I.members_of) self.now.context.now r x.now a.now (abs.Ints w)) }
    {
        let set = copied(alloc, x)?;
        let value = changed.value_with(alloc, self.context, a, r, set)?;
        match value {
            Abs::Ints(w) => Ok(w),
            Abs::Addrs(_) => unreachable!(),
        }
    }

    /// What is left of a set, cut by one operand of a comparison, where the range of the register is x.
    pub(crate) fn cut_as(
        &self,
        alloc: Global,
        changed: &mut Changed<I>,
        r: u32,
        x: &I,
        op: BinOp,
        a: &Expr,
        other: &Expr,
        u: I,
    ) -> Result<I, NoMemory>
        requires tested { IsTested (domain I.Has I.IsBelow I.OpGives I.OpOneGives I.ToGives I.KeepGives I.members_of) self.now }
        requires changed { IsChangedOf self.now.context.now changed.old }
        requires holds { MayHoldAll (domain I.Has I.IsBelow I.OpGives I.OpOneGives I.ToGives I.KeepGives I.members_of) self.now.context.now r x.now }
        requires number { IsPureNumber (domain I.Has I.IsBelow I.OpGives I.OpOneGives I.ToGives I.KeepGives I.members_of) self.now.context.now other.now }
        requires compares { is_comparison op ≡ true }
        ensures changed { IsChangedOf self.now.context.now changed.new }
        ensures cut { IfOk result (λ z. IsCutAsIn (domain I.Has I.IsBelow I.OpGives I.OpOneGives I.ToGives I.KeepGives I.members_of) self.now r x.now op a.now other.now u z) }
        ensures below { IfOk result (λ z. I.IsBelow z u) }
    {
        if !is_operand(self, r, x, a) {
            return Ok(u);
        }
        let w = self.numbers_with(alloc, changed, r, x, other)?;
        Ok(u.keep(op, &w))
    }
}
