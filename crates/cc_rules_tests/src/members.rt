//! What a test leaves of an explicit set, member by member.

ghost use Rattle.std.specs.Prelude.{◌≡◌, ◌↔◌, IsTrue, IfOk, ℤ, false};
ghost use Rattle.std.specs.List.{Contains};
ghost use Rattle.cc_rules_flows.specs.CcLattice.Domains.{IsIntValue};
ghost use Rattle.cc_rules_flows.specs.CcPlaces.Abstract.{IsBelowAbs};
ghost use Rattle.cc_rules_flows.specs.CcPlaces.declared.abs.Abs.{Abs as AbsOf};
ghost use Rattle.cc_rules_tests.specs.Passing.{MayPassIn};
ghost use Rattle.cc_rules_tests.specs.Reads.{reads as reads_of};
ghost use Rattle.cc_rules_tests.specs.Tested.{IsExplicitIn, IsLeftIn, IsTested, IsWorkedAt, MayHoldEach, StaysIn, labels_of, test_of};
ghost use Rattle.cc_rules_tests.specs.Trials.{HasOne, IsExplicitSet, IsTried, IsTrialOf};
ghost use Rattle.cc_rules_flows.specs.CcStateOperators.Domains.{domain, IsHull, IsHullFrom};

use crate::passing::passes;
use crate::reading::reads;
use crate::tested::{Test, Tested};
use crate::trial::Trial;
use crate::tried::Tried;
use cc_program::num::NoMemory;
use cc_rules_flows::lattice::{IntDomain, Lattice};
use cc_rules_flows::places::Abs;
use cc_rules_flows::state_shared::Shared;
use std::alloc::Global;

/// Whether a test passes with each of some sets.
fn all_pass<I: IntDomain>(test: Test<'_>, values: &[Abs<I>]) -> bool
    requires { (n : ℤ) → Contains (labels_of (test_of test)) n → IsIntValue n }
    ensures { IsTrue result ↔ ((y : AbsOf I) → Contains values.now y → MayPassIn (domain I.Has I.IsBelow I.OpGives I.OpOneGives I.ToGives I.KeepGives I.members_of) (test_of test.entry) y) }
{
    for y in values {
        if !passes(test, y) {
            return false;
        }
    }
    true
}

/// A set with a number more, where the test passes with what is given at it.
fn with_number<I: IntDomain>(
    alloc: Global,
    test: Test<'_>,
    set: I,
    m: &i128,
    y: &Abs<I>,
) -> Result<I, NoMemory>
    requires labels { (n : ℤ) → Contains (labels_of (test_of test)) n → IsIntValue n }
    requires number { IsIntValue m.now }
    ensures { IfOk result (λ u. IsHullFrom (domain I.Has I.IsBelow I.OpGives I.OpOneGives I.ToGives I.KeepGives I.members_of) set (λ n. (n ≡ m.now) × MayPassIn (domain I.Has I.IsBelow I.OpGives I.OpOneGives I.ToGives I.KeepGives I.members_of) (test_of test.entry) y.now) u) }
{
    if passes(test, y) {
        set.join(alloc, &I::one(alloc, *m))
    } else {
        Ok(set)
    }
}

/// That there is a set of each number alone. What is made here is let go, and so no set is made when it runs.
fn have_ones<I: IntDomain>(alloc: Global, numbers: &[i128])
    requires numbers { (m : ℤ) → Contains numbers.now m → IsIntValue m }
    ensures { (m : ℤ) → Contains numbers.now m → HasOne (domain I.Has I.IsBelow I.OpGives I.OpOneGives I.ToGives I.KeepGives I.members_of) m }
{
    for m in numbers {
        let _one = I::one(alloc, *m);
    }
}

impl<I: IntDomain> Tested<'_, I> {
    /// The least set that has those numbers with which the test may pass.
    fn staying(&self, alloc: Global, tried: &Tried<I>) -> Result<I, NoMemory>
        requires tested { IsTested (domain I.Has I.IsBelow I.OpGives I.OpOneGives I.ToGives I.KeepGives I.members_of) self.now }
        requires tried { IsTried (domain I.Has I.IsBelow I.OpGives I.OpOneGives I.ToGives I.KeepGives I.members_of) self.now.context.now self.now.expression.now tried.now }
        requires holds { MayHoldEach (domain I.Has I.IsBelow I.OpGives I.OpOneGives I.ToGives I.KeepGives I.members_of) self.now.context.now tried.now.register tried.now.numbers.items }
        ensures { IfOk result (λ u. IsHull (domain I.Has I.IsBelow I.OpGives I.OpOneGives I.ToGives I.KeepGives I.members_of) (λ m. Contains tried.now.numbers.items m × StaysIn (domain I.Has I.IsBelow I.OpGives I.OpOneGives I.ToGives I.KeepGives I.members_of) self.now tried.now.register m) u) }
    {
        let numbers = tried.numbers.as_slice();
        let values = tried.values.as_slice();
        let mut left = I::none(alloc);
        for at in 0..numbers.len() {
            left = with_number(alloc, self.test, left, &numbers[at], &values[at])?;
        }
        Ok(left)
    }

    /// What is left of an explicit set of a register that the expression reads.
    fn of_read(
        &self,
        alloc: Global,
        trial: &mut Trial<I>,
        r: u32,
        members: &[i128],
        y: &Shared<Abs<I>>,
    ) -> Result<Shared<Abs<I>>, NoMemory>
        requires tested { IsTested (domain I.Has I.IsBelow I.OpGives I.OpOneGives I.ToGives I.KeepGives I.members_of) self.now }
        requires trial { IsTrialOf (domain I.Has I.IsBelow I.OpGives I.OpOneGives I.ToGives I.KeepGives I.members_of) self.now.context.now self.now.expression.now trial.old }
        requires holds { MayHoldEach (domain I.Has I.IsBelow I.OpGives I.OpOneGives I.ToGives I.KeepGives I.members_of) self.now.context.now r members.now }
        requires members { IsExplicitSet (domain I.Has I.IsBelow I.OpGives I.OpOneGives I.ToGives I.KeepGives I.members_of) y.now members.now }
        ensures trial { IsTrialOf (domain I.Has I.IsBelow I.OpGives I.OpOneGives I.ToGives I.KeepGives I.members_of) self.now.context.now self.now.expression.now trial.new }
        ensures left { IfOk result (λ z. IsLeftIn (domain I.Has I.IsBelow I.OpGives I.OpOneGives I.ToGives I.KeepGives I.members_of) self.now r y.now z) }
        ensures below { IfOk result (λ z. IsBelowAbs I.IsBelow z y.now) }
        ensures worked { IfOk result (λ z. (m : ℤ) → IsExplicitIn (domain I.Has I.IsBelow I.OpGives I.OpOneGives I.ToGives I.KeepGives I.members_of) self.now.context.now y.now m → IsWorkedAt (domain I.Has I.IsBelow I.OpGives I.OpOneGives I.ToGives I.KeepGives I.members_of) self.now r m) }
    {
        let tried = trial.tried(alloc, self.context, self.expression, r, members)?;
        let given = tried.get();
        if all_pass(self.test, given.values.as_slice()) {
            return y.share();
        }
        let left = self.staying(alloc, given)?;
        Shared::new(alloc, Abs::Ints(left))
    }

    /// What is left of an explicit set of a register that the expression does not read: all or nothing.
    fn of_unread(
        &self,
        alloc: Global,
        trial: &Trial<I>,
        r: u32,
        members: &[i128],
        y: &Shared<Abs<I>>,
    ) -> Result<Shared<Abs<I>>, NoMemory>
        requires tested { IsTested (domain I.Has I.IsBelow I.OpGives I.OpOneGives I.ToGives I.KeepGives I.members_of) self.now }
        requires trial { IsTrialOf (domain I.Has I.IsBelow I.OpGives I.OpOneGives I.ToGives I.KeepGives I.members_of) self.now.context.now self.now.expression.now trial.now }
        requires holds { MayHoldEach (domain I.Has I.IsBelow I.OpGives I.OpOneGives I.ToGives I.KeepGives I.members_of) self.now.context.now r members.now }
        requires members { IsExplicitSet (domain I.Has I.IsBelow I.OpGives I.OpOneGives I.ToGives I.KeepGives I.members_of) y.now members.now }
        requires unread { reads_of r self.now.expression.now ≡ false }
        ensures left { IfOk result (λ z. IsLeftIn (domain I.Has I.IsBelow I.OpGives I.OpOneGives I.ToGives I.KeepGives I.members_of) self.now r y.now z) }
        ensures below { IfOk result (λ z. IsBelowAbs I.IsBelow z y.now) }
        ensures worked { IfOk result (λ z. (m : ℤ) → IsExplicitIn (domain I.Has I.IsBelow I.OpGives I.OpOneGives I.ToGives I.KeepGives I.members_of) self.now.context.now y.now m → IsWorkedAt (domain I.Has I.IsBelow I.OpGives I.OpOneGives I.ToGives I.KeepGives I.members_of) self.now r m) }
    {
        have_ones::<I>(alloc, members);
        if passes(self.test, trial.whole()) {
            return y.share();
        }
        let left = I::none(alloc);
        Shared::new(alloc, Abs::Ints(left))
    }

    /// What is left of an explicit set.
    pub(crate) fn of_members(
        &self,
        alloc: Global,
        trial: &mut Trial<I>,
        r: u32,
        members: &[i128],
        y: &Shared<Abs<I>>,
    ) -> Result<Shared<Abs<I>>, NoMemory>
        requires tested { IsTested (domain I.Has I.IsBelow I.OpGives I.OpOneGives I.ToGives I.KeepGives I.members_of) self.now }
        requires trial { IsTrialOf (domain I.Has I.IsBelow I.OpGives I.OpOneGives I.ToGives I.KeepGives I.members_of) self.now.context.now self.now.expression.now trial.old }
        requires holds { MayHoldEach (domain I.Has I.IsBelow I.OpGives I.OpOneGives I.ToGives I.KeepGives I.members_of) self.now.context.now r members.now }
        requires members { IsExplicitSet (domain I.Has I.IsBelow I.OpGives I.OpOneGives I.ToGives I.KeepGives I.members_of) y.now members.now }
        ensures trial { IsTrialOf (domain I.Has I.IsBelow I.OpGives I.OpOneGives I.ToGives I.KeepGives I.members_of) self.now.context.now self.now.expression.now trial.new }
        ensures left { IfOk result (λ z. IsLeftIn (domain I.Has I.IsBelow I.OpGives I.OpOneGives I.ToGives I.KeepGives I.members_of) self.now r y.now z) }
        ensures below { IfOk result (λ z. IsBelowAbs I.IsBelow z y.now) }
        ensures worked { IfOk result (λ z. (m : ℤ) → IsExplicitIn (domain I.Has I.IsBelow I.OpGives I.OpOneGives I.ToGives I.KeepGives I.members_of) self.now.context.now y.now m → IsWorkedAt (domain I.Has I.IsBelow I.OpGives I.OpOneGives I.ToGives I.KeepGives I.members_of) self.now r m) }
    {
        if reads(self.expression, r) {
            self.of_read(alloc, trial, r, members, y)
        } else {
            self.of_unread(alloc, trial, r, members, y)
        }
    }
}
