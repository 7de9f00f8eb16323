//! What a test leaves of a set.

ghost use Rattle.std.specs.Prelude.{◌≡◌, ◌↔◌, ℤ, IfOk, IsTrue, None, true};
ghost use Rattle.cc_rules_flows.specs.CcPlaces.Abstract.{IsBelowAbs};
ghost use Rattle.cc_rules_flows.specs.CcPlaces.declared.abs.Abs.TheVariants as abs;
ghost use Rattle.cc_rules_tests.specs.Tested.{IsExplicitIn, IsLeftAlikeIn, IsLeftIn, IsOfRegisterIn, IsTested, IsWorkedAt, MayHave, MayHoldAll};
ghost use Rattle.cc_rules_tests.specs.Trials.{IsTrialOf};
ghost use Rattle.cc_rules_flows.specs.CcStateOperators.Domains.{domain};
ghost use Rattle.cc_rules_flows.specs.CcSyntax.Registers.{is_register};

use crate::operand::are_of;
use crate::reading::reads;
use crate::tested::Tested;
use crate::trial::Trial;
use cc_program::num::{NoMemory, at};
use cc_rules_flows::lattice::IntDomain;
use cc_rules_flows::places::Abs;
use cc_rules_flows::state_shared::Shared;
use cc_rules_flows::typed::scalar_value;
use std::alloc::Global;

impl<I: IntDomain> Tested<'_, I> {
    /// What is left of a range, which is a set behind a pointer.
    fn of_span(
        &self,
        alloc: Global,
        trial: &mut Trial<I>,
        r: u32,
        x: &I,
        y: &Shared<Abs<I>>,
    ) -> Result<Shared<Abs<I>>, NoMemory>
        requires tested { IsTested (domain I.Has I.IsBelow I.OpGives I.OpOneGives I.ToGives I.KeepGives I.members_of) self.now }
        requires trial { IsTrialOf (domain I.Has I.IsBelow I.OpGives I.OpOneGives I.ToGives I.KeepGives I.members_of) self.now.context.now self.now.expression.now trial.old }
        requires holds { MayHoldAll (domain I.Has I.IsBelow I.OpGives I.OpOneGives I.ToGives I.KeepGives I.members_of) self.now.context.now r x.now }
        requires set { y.now ≡ abs.Ints x.now }
        requires range { I.members_of x.now ≡ None }
        ensures trial { IsTrialOf (domain I.Has I.IsBelow I.OpGives I.OpOneGives I.ToGives I.KeepGives I.members_of) self.now.context.now self.now.expression.now trial.new }
        ensures left { IfOk result (λ z. IsLeftIn (domain I.Has I.IsBelow I.OpGives I.OpOneGives I.ToGives I.KeepGives I.members_of) self.now r y.now z) }
        ensures below { IfOk result (λ z. IsBelowAbs I.IsBelow z y.now) }
    {
        if !reads(self.expression, r) {
            return y.share();
        }
        let left = self.of_range(alloc, &mut trial.changed, r, x)?;
        Shared::new(alloc, Abs::Ints(left))
    }

    /// What is left of a set of integers, which is a set behind a pointer.
    fn of_integers(
        &self,
        alloc: Global,
        trial: &mut Trial<I>,
        r: u32,
        x: &I,
        y: &Shared<Abs<I>>,
    ) -> Result<Shared<Abs<I>>, NoMemory>
        requires tested { IsTested (domain I.Has I.IsBelow I.OpGives I.OpOneGives I.ToGives I.KeepGives I.members_of) self.now }
        requires trial { IsTrialOf (domain I.Has I.IsBelow I.OpGives I.OpOneGives I.ToGives I.KeepGives I.members_of) self.now.context.now self.now.expression.now trial.old }
        requires holds { MayHoldAll (domain I.Has I.IsBelow I.OpGives I.OpOneGives I.ToGives I.KeepGives I.members_of) self.now.context.now r x.now }
        requires set { y.now ≡ abs.Ints x.now }
        ensures trial { IsTrialOf (domain I.Has I.IsBelow I.OpGives I.OpOneGives I.ToGives I.KeepGives I.members_of) self.now.context.now self.now.expression.now trial.new }
        ensures left { IfOk result (λ z. IsLeftIn (domain I.Has I.IsBelow I.OpGives I.OpOneGives I.ToGives I.KeepGives I.members_of) self.now r y.now z) }
        ensures below { IfOk result (λ z. IsBelowAbs I.IsBelow z y.now) }
        ensures worked { IfOk result (λ z. (m : ℤ) → IsExplicitIn (domain I.Has I.IsBelow I.OpGives I.OpOneGives I.ToGives I.KeepGives I.members_of) self.now.context.now y.now m → IsWorkedAt (domain I.Has I.IsBelow I.OpGives I.OpOneGives I.ToGives I.KeepGives I.members_of) self.now r m) }
    {
        match x.members() {
            Some(members) => self.of_members(alloc, trial, r, members, y),
            None => self.of_span(alloc, trial, r, x, y),
        }
    }

    /// What is left of a set of a register, or of a cell that equals it.
    pub fn left_of(
        &self,
        alloc: Global,
        trial: &mut Trial<I>,
        r: u32,
        y: &Shared<Abs<I>>,
    ) -> Result<Shared<Abs<I>>, NoMemory>
        requires tested { IsTested (domain I.Has I.IsBelow I.OpGives I.OpOneGives I.ToGives I.KeepGives I.members_of) self.now }
        requires trial { IsTrialOf (domain I.Has I.IsBelow I.OpGives I.OpOneGives I.ToGives I.KeepGives I.members_of) self.now.context.now self.now.expression.now trial.old }
        requires holds { MayHave (domain I.Has I.IsBelow I.OpGives I.OpOneGives I.ToGives I.KeepGives I.members_of) self.now.context.now r y.now }
        ensures trial { IsTrialOf (domain I.Has I.IsBelow I.OpGives I.OpOneGives I.ToGives I.KeepGives I.members_of) self.now.context.now self.now.expression.now trial.new }
        ensures left { IfOk result (λ z. IsLeftIn (domain I.Has I.IsBelow I.OpGives I.OpOneGives I.ToGives I.KeepGives I.members_of) self.now r y.now z) }
        ensures below { IfOk result (λ z. IsBelowAbs I.IsBelow z y.now) }
        ensures worked { IfOk result (λ z. (m : ℤ) → IsExplicitIn (domain I.Has I.IsBelow I.OpGives I.OpOneGives I.ToGives I.KeepGives I.members_of) self.now.context.now y.now m → IsWorkedAt (domain I.Has I.IsBelow I.OpGives I.OpOneGives I.ToGives I.KeepGives I.members_of) self.now r m) }
    {
        match y.get() {
            Abs::Addrs(_) => y.share(),
            Abs::Ints(x) => self.of_integers(alloc, trial, r, x, y),
        }
    }

    /// Whether a set has only values of the type of a register.
    fn is_of_register(&self, r: u32, y: &Abs<I>) -> bool
        requires { is_register self.now.context.now.func.now r ≡ true }
        ensures { IsTrue result ↔ IsOfRegisterIn (domain I.Has I.IsBelow I.OpGives I.OpOneGives I.ToGives I.KeepGives I.members_of) self.now r y.now }
    {
        match at(self.context.func.locals.all(), r as usize) {
            None => false,
            Some(local) => match scalar_value(&local.1) {
                None => false,
                Some(t) => are_of(y, t, &self.context.program.target),
            },
        }
    }

    /// What a register that equals a cell leaves of its set: all of it where that has other values than the register may have.
    pub fn left_alike(
        &self,
        alloc: Global,
        trial: &mut Trial<I>,
        r: u32,
        y: &Shared<Abs<I>>,
    ) -> Result<Shared<Abs<I>>, NoMemory>
        requires tested { IsTested (domain I.Has I.IsBelow I.OpGives I.OpOneGives I.ToGives I.KeepGives I.members_of) self.now }
        requires trial { IsTrialOf (domain I.Has I.IsBelow I.OpGives I.OpOneGives I.ToGives I.KeepGives I.members_of) self.now.context.now self.now.expression.now trial.old }
        requires register { is_register self.now.context.now.func.now r ≡ true }
        ensures trial { IsTrialOf (domain I.Has I.IsBelow I.OpGives I.OpOneGives I.ToGives I.KeepGives I.members_of) self.now.context.now self.now.expression.now trial.new }
        ensures left { IfOk result (λ z. IsLeftAlikeIn (domain I.Has I.IsBelow I.OpGives I.OpOneGives I.ToGives I.KeepGives I.members_of) self.now r y.now z) }
        ensures below { IfOk result (λ z. IsBelowAbs I.IsBelow z y.now) }
        ensures worked { IfOk result (λ z. IsOfRegisterIn (domain I.Has I.IsBelow I.OpGives I.OpOneGives I.ToGives I.KeepGives I.members_of) self.now r y.now → (m : ℤ) → IsExplicitIn (domain I.Has I.IsBelow I.OpGives I.OpOneGives I.ToGives I.KeepGives I.members_of) self.now.context.now y.now m → IsWorkedAt (domain I.Has I.IsBelow I.OpGives I.OpOneGives I.ToGives I.KeepGives I.members_of) self.now r m) }
    {
        if self.is_of_register(r, y.get()) {
            self.left_of(alloc, trial, r, y)
        } else {
            y.share()
        }
    }
}
