//! What has been worked of an expression.

ghost use Rattle.std.specs.Prelude.{◌≡◌, IfOk};
ghost use Rattle.cc_rules_tests.specs.Tested.{MayHoldEach};
ghost use Rattle.cc_rules_tests.specs.Trials.{IsTried, IsTriedAt, IsTrialOf};
ghost use Rattle.cc_rules_flows.specs.CcStateOperators.Domains.{domain};
ghost use Rattle.cc_rules_flows.specs.CcStateValues.Contexts.{HaveSetsIn, IsPureIn};
ghost use Rattle.cc_rules_flows.specs.CcSyntax.Sizes.{AreSized};

use crate::changed::Changed;
use crate::tried::{Tried, tried_at};
use cc_program::Expr;
use cc_program::num::NoMemory;
use cc_rules_flows::lattice::IntDomain;
use cc_rules_flows::places::Abs;
use cc_rules_flows::state_shared::Shared;
use cc_rules_flows::state_values::{Context, value_of};
use std::alloc::Global;

/// What an expression gives: at the sets that the registers of its function have, and with one of them at each of some numbers,
/// as far as it has been worked.
#[derive(Drop)]
pub struct Trial<I> {
    pub(crate) changed: Changed<I>,
    whole: Abs<I>,
    tried: Vec<Shared<Tried<I>>>,
}

impl<I: IntDomain> Trial<I> {
    /// What an expression gives at the sets that the registers have.
    pub fn new(alloc: Global, c: &Context<'_, I>, e: &Expr) -> Result<Trial<I>, NoMemory>
        requires sized { AreSized c.now.program.now.structures c.now.program.now.target }
        requires sets { HaveSetsIn (domain I.Has I.IsBelow I.OpGives I.OpOneGives I.ToGives I.KeepGives I.members_of) c.now }
        requires pure { IsPureIn (domain I.Has I.IsBelow I.OpGives I.OpOneGives I.ToGives I.KeepGives I.members_of) c.now e.now }
        ensures { IfOk result (λ trial. IsTrialOf (domain I.Has I.IsBelow I.OpGives I.OpOneGives I.ToGives I.KeepGives I.members_of) c.now e.now trial) }
    {
        let changed = Changed::new(alloc, c)?;
        let whole = value_of(alloc, c, e)?;
        let tried = Vec::new(alloc);
        Ok(Trial {
            changed,
            whole,
            tried,
        })
    }

    /// What the expression gives at the sets that the registers have.
    pub fn whole(&self) -> &Abs<I>
        ensures { result.now ≡ self.now.whole }
    {
        &self.whole
    }

    /// What the expression gives with a register at each of some numbers, worked now, and kept.
    fn try_now(
        &mut self,
        alloc: Global,
        c: &Context<'_, I>,
        e: &Expr,
        r: u32,
        numbers: &[i128],
    ) -> Result<Shared<Tried<I>>, NoMemory>
        requires sized { AreSized c.now.program.now.structures c.now.program.now.target }
        requires sets { HaveSetsIn (domain I.Has I.IsBelow I.OpGives I.OpOneGives I.ToGives I.KeepGives I.members_of) c.now }
        requires pure { IsPureIn (domain I.Has I.IsBelow I.OpGives I.OpOneGives I.ToGives I.KeepGives I.members_of) c.now e.now }
        requires trial { IsTrialOf (domain I.Has I.IsBelow I.OpGives I.OpOneGives I.ToGives I.KeepGives I.members_of) c.now e.now self.old }
        requires holds { MayHoldEach (domain I.Has I.IsBelow I.OpGives I.OpOneGives I.ToGives I.KeepGives I.members_of) c.now r numbers.now }
        ensures trial { IsTrialOf (domain I.Has I.IsBelow I.OpGives I.OpOneGives I.ToGives I.KeepGives I.members_of) c.now e.now self.new }
        ensures at { IfOk result (λ t. IsTriedAt r numbers.now t) }
        ensures tried { IfOk result (λ t. IsTried (domain I.Has I.IsBelow I.OpGives I.OpOneGives I.ToGives I.KeepGives I.members_of) c.now e.now t) }
    {
        let values = self.changed.values_at(alloc, c, e, r, numbers)?;
        let numbers = Vec::from_slice(alloc, numbers)?;
        let made = Tried {
            register: r,
            numbers,
            values,
        };
        let tried = Shared::new(alloc, made)?;
        let kept = tried.share()?;
        self.tried.push(kept)?;
        Ok(tried)
    }

    /// What the expression gives with a register at each of some numbers. It is worked once.
    pub(crate) fn tried(
        &mut self,
        alloc: Global,
        c: &Context<'_, I>,
        e: &Expr,
        r: u32,
        numbers: &[i128],
    ) -> Result<Shared<Tried<I>>, NoMemory>
        requires sized { AreSized c.now.program.now.structures c.now.program.now.target }
        requires sets { HaveSetsIn (domain I.Has I.IsBelow I.OpGives I.OpOneGives I.ToGives I.KeepGives I.members_of) c.now }
        requires pure { IsPureIn (domain I.Has I.IsBelow I.OpGives I.OpOneGives I.ToGives I.KeepGives I.members_of) c.now e.now }
        requires trial { IsTrialOf (domain I.Has I.IsBelow I.OpGives I.OpOneGives I.ToGives I.KeepGives I.members_of) c.now e.now self.old }
        requires holds { MayHoldEach (domain I.Has I.IsBelow I.OpGives I.OpOneGives I.ToGives I.KeepGives I.members_of) c.now r numbers.now }
        ensures trial { IsTrialOf (domain I.Has I.IsBelow I.OpGives I.OpOneGives I.ToGives I.KeepGives I.members_of) c.now e.now self.new }
        ensures at { IfOk result (λ t. IsTriedAt r numbers.now t) }
        ensures tried { IfOk result (λ t. IsTried (domain I.Has I.IsBelow I.OpGives I.OpOneGives I.ToGives I.KeepGives I.members_of) c.now e.now t) }
    {
        let found = tried_at(self.tried.as_slice(), r, numbers)?;
        match found {
            Some(tried) => Ok(tried),
            None => self.try_now(alloc, c, e, r, numbers),
        }
    }
}
