//! What a test leaves of a range.

ghost use Rattle.std.specs.Prelude.{◌≡◌, IfOk, true, None};
ghost use Rattle.cc_rules_flows.specs.CcLattice.Domains.{is_comparison as is_comparison_of};
ghost use Rattle.cc_rules_flows.specs.Tests.{Is, Equals, Differs, negated as negated_of, turned as turned_of, passing as passing_of};
ghost use Rattle.cc_rules_tests.specs.Tested.{IsCutAsIn, IsPureNumber, IsRangeLeftIn, IsTested, IsChangedOf, MayHoldAll, test_of};
ghost use Rattle.cc_rules_flows.specs.CcStateOperators.Domains.{domain};
ghost use Rattle.cc_rules_flows.specs.CcSyntax.Registers.{is_register};

use crate::changed::Changed;
use crate::cut::at_label;
use crate::forms::comparison_of;
use crate::operand::is_operand;
use crate::tested::{Test, Tested};
use cc_program::Expr;
use cc_program::num::{BinOp, NoMemory};
use cc_rules_flows::lattice::{IntDomain, copied};
use std::alloc::Global;

/// The comparison that passes where another one does not.
fn negated(op: BinOp) -> BinOp
    ensures { result ≡ negated_of op }
{
    match op {
        BinOp::Lt => BinOp::Ge,
        BinOp::Le => BinOp::Gt,
        BinOp::Gt => BinOp::Le,
        BinOp::Ge => BinOp::Lt,
        BinOp::Eq => BinOp::Ne,
        BinOp::Ne => BinOp::Eq,
        _ => op,
    }
}

/// The comparison that passes with the operands the other way round.
fn turned(op: BinOp) -> BinOp
    ensures { result ≡ turned_of op }
{
    match op {
        BinOp::Lt => BinOp::Gt,
        BinOp::Le => BinOp::Ge,
        BinOp::Gt => BinOp::Lt,
        BinOp::Ge => BinOp::Le,
        _ => op,
    }
}

/// The comparison that passes where the condition is so.
fn passing(b: bool, op: BinOp) -> BinOp
    ensures { result ≡ passing_of b op }
{
    if b { op } else { negated(op) }
}

impl<I: IntDomain> Tested<'_, I> {
    /// By the operands of a comparison, first the left one.
    fn by_operands(
        &self,
        alloc: Global,
        changed: &mut Changed<I>,
        r: u32,
        x: &I,
        op: BinOp,
        a: &Expr,
        c: &Expr,
    ) -> Result<I, NoMemory>
        requires tested { IsTested (domain I.Has I.IsBelow I.OpGives I.OpOneGives I.ToGives I.KeepGives I.members_of) self.now }
        requires changed { IsChangedOf self.now.context.now changed.old }
        requires holds { MayHoldAll (domain I.Has I.IsBelow I.OpGives I.OpOneGives I.ToGives I.KeepGives I.members_of) self.now.context.now r x.now }
        requires compares { is_comparison_of op ≡ true }
        requires first { IsPureNumber (domain I.Has I.IsBelow I.OpGives I.OpOneGives I.ToGives I.KeepGives I.members_of) self.now.context.now a.now }
        requires second { IsPureNumber (domain I.Has I.IsBelow I.OpGives I.OpOneGives I.ToGives I.KeepGives I.members_of) self.now.context.now c.now }
        ensures changed { IsChangedOf self.now.context.now changed.new }
        ensures cut { IfOk result (λ z. (u : I) × IsCutAsIn (domain I.Has I.IsBelow I.OpGives I.OpOneGives I.ToGives I.KeepGives I.members_of) self.now r x.now op a.now c.now x.now u × IsCutAsIn (domain I.Has I.IsBelow I.OpGives I.OpOneGives I.ToGives I.KeepGives I.members_of) self.now r x.now (turned_of op) c.now a.now u z) }
        ensures below { IfOk result (λ z. I.IsBelow z x.now) }
    {
        let u = copied(alloc, x)?;
        let u = self.cut_as(alloc, changed, r, x, op, a, c, u)?;
        self.cut_as(alloc, changed, r, x, turned(op), c, a, u)
    }

    /// By a condition.
    fn by_condition(
        &self,
        alloc: Global,
        changed: &mut Changed<I>,
        r: u32,
        x: &I,
        b: bool,
    ) -> Result<I, NoMemory>
        requires tested { IsTested (domain I.Has I.IsBelow I.OpGives I.OpOneGives I.ToGives I.KeepGives I.members_of) self.now }
        requires changed { IsChangedOf self.now.context.now changed.old }
        requires holds { MayHoldAll (domain I.Has I.IsBelow I.OpGives I.OpOneGives I.ToGives I.KeepGives I.members_of) self.now.context.now r x.now }
        requires range { I.members_of x.now ≡ None }
        requires is { test_of self.now.test ≡ Is b }
        ensures changed { IsChangedOf self.now.context.now changed.new }
        ensures left { IfOk result (λ u. IsRangeLeftIn (domain I.Has I.IsBelow I.OpGives I.OpOneGives I.ToGives I.KeepGives I.members_of) self.now r x.now u) }
        ensures below { IfOk result (λ u. I.IsBelow u x.now) }
    {
        match comparison_of(self.expression) {
            None => copied(alloc, x),
            Some(c) => {
                let op = passing(b, c.op);
                self.by_operands(alloc, changed, r, x, op, c.left, c.right)
            }
        }
    }

    /// By a label.
    fn by_label(&self, alloc: Global, r: u32, x: &I, n: i128) -> Result<I, NoMemory>
        requires tested { IsTested (domain I.Has I.IsBelow I.OpGives I.OpOneGives I.ToGives I.KeepGives I.members_of) self.now }
        requires register { is_register self.now.context.now.func.now r ≡ true }
        requires range { I.members_of x.now ≡ None }
        requires is { test_of self.now.test ≡ Equals n }
        ensures left { IfOk result (λ u. IsRangeLeftIn (domain I.Has I.IsBelow I.OpGives I.OpOneGives I.ToGives I.KeepGives I.members_of) self.now r x.now u) }
        ensures below { IfOk result (λ u. I.IsBelow u x.now) }
    {
        if is_operand(self, r, x, self.expression) {
            Ok(at_label(alloc, x, n))
        } else {
            copied(alloc, x)
        }
    }

    /// By labels that it does not equal.
    fn by_labels(&self, alloc: Global, r: u32, x: &I, labels: &[i128]) -> Result<I, NoMemory>
        requires tested { IsTested (domain I.Has I.IsBelow I.OpGives I.OpOneGives I.ToGives I.KeepGives I.members_of) self.now }
        requires register { is_register self.now.context.now.func.now r ≡ true }
        requires range { I.members_of x.now ≡ None }
        requires is { test_of self.now.test ≡ Differs labels.now }
        ensures left { IfOk result (λ u. IsRangeLeftIn (domain I.Has I.IsBelow I.OpGives I.OpOneGives I.ToGives I.KeepGives I.members_of) self.now r x.now u) }
        ensures below { IfOk result (λ u. I.IsBelow u x.now) }
    {
        if is_operand(self, r, x, self.expression) {
            self.without_labels(alloc, x, labels)
        } else {
            copied(alloc, x)
        }
    }

    /// What is left of a range.
    pub(crate) fn of_range(
        &self,
        alloc: Global,
        changed: &mut Changed<I>,
        r: u32,
        x: &I,
    ) -> Result<I, NoMemory>
        requires tested { IsTested (domain I.Has I.IsBelow I.OpGives I.OpOneGives I.ToGives I.KeepGives I.members_of) self.now }
        requires changed { IsChangedOf self.now.context.now changed.old }
        requires holds { MayHoldAll (domain I.Has I.IsBelow I.OpGives I.OpOneGives I.ToGives I.KeepGives I.members_of) self.now.context.now r x.now }
        requires range { I.members_of x.now ≡ None }
        ensures changed { IsChangedOf self.now.context.now changed.new }
        ensures left { IfOk result (λ u. IsRangeLeftIn (domain I.Has I.IsBelow I.OpGives I.OpOneGives I.ToGives I.KeepGives I.members_of) self.now r x.now u) }
        ensures below { IfOk result (λ u. I.IsBelow u x.now) }
    {
        match self.test {
            Test::Is(b) => self.by_condition(alloc, changed, r, x, b),
            Test::Equals(n) => self.by_label(alloc, r, x, n),
            Test::Differs(labels) => self.by_labels(alloc, r, x, labels),
        }
    }
}
