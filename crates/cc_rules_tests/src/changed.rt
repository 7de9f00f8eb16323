//! An expression worked where one register has another set.

ghost use Rattle.std.specs.Prelude.{◌≡◌, ◌++◌, ◌∷◌, IfOk, OnOk, Some};
ghost use Rattle.cc_rules_flows.specs.CcPlaces.declared.abs.Abs.TheVariants as abs;
ghost use Rattle.cc_rules_tests.specs.Tested.{IsChangedOf, IsValWith, MayHoldAll, MayHoldEach, MayHoldOne};
ghost use Rattle.cc_rules_tests.specs.Trials.{AreGivenAt, IsGivenAt};
ghost use Rattle.cc_rules_flows.specs.CcStateOperators.Domains.{domain};
ghost use Rattle.cc_rules_flows.specs.CcStateOperators.Types.{AreOf};
ghost use Rattle.cc_rules_flows.specs.CcStateValues.Contexts.{HaveSetsIn, IsPureIn};
ghost use Rattle.cc_rules_flows.specs.CcSyntax.Programs.{type_of};
ghost use Rattle.cc_rules_flows.specs.CcSyntax.Sizes.{AreSized};
ghost use Rattle.cc_rules_flows.specs.CcSyntax.Values.{ValueType};

use cc_program::Expr;
use cc_program::num::NoMemory;
use cc_rules_flows::lattice::IntDomain;
use cc_rules_flows::places::Abs;
use cc_rules_flows::state_shared::Shared;
use cc_rules_flows::state_values::{Context, value_of};
use std::alloc::Global;

/// The registers of a function with their sets, and before them one of these once more, with another set.
#[derive(Drop)]
pub struct Changed<I> {
    registers: Vec<u32>,
    sets: Vec<Shared<Abs<I>>>,
}

/// Puts each set behind others, with one more owner.
fn put_shared<I: Drop>(
    all: &mut Vec<Shared<Abs<I>>>,
    sets: &[Shared<Abs<I>>],
) -> Result<(), NoMemory>
    ensures { OnOk result (all.new.items ≡ all.old.items ++ sets.now) }
{
    for set in sets {
        all.push(set.share()?)?;
    }
    Ok(())
}

/// The registers behind any number.
fn behind_one(alloc: Global, registers: &[u32]) -> Result<Vec<u32>, NoMemory>
    ensures { IfOk result (λ all. all.items ≡ 0 ∷ registers.now) }
{
    let mut all = Vec::new(alloc);
    all.push(0)?;
    all.extend_from_slice(registers)?;
    Ok(all)
}

impl<I: IntDomain> Changed<I> {
    /// The registers of a function, with the sets that they have.
    pub fn new(alloc: Global, c: &Context<'_, I>) -> Result<Changed<I>, NoMemory>
        ensures { IfOk result (λ changed. IsChangedOf c.now changed) }
    {
        let registers = behind_one(alloc, c.registers)?;
        let mut sets = Vec::new(alloc);
        let first = Shared::new(alloc, Abs::Ints(I::none(alloc)))?;
        sets.push(first)?;
        put_shared(&mut sets, c.sets)?;
        Ok(Changed { registers, sets })
    }

    /// What an expression may give where a register has this set.
    pub fn value_with(
        &mut self,
        alloc: Global,
        c: &Context<'_, I>,
        e: &Expr,
        r: u32,
        set: I,
    ) -> Result<Abs<I>, NoMemory>
        requires sized { AreSized c.now.program.now.structures c.now.program.now.target }
        requires sets { HaveSetsIn (domain I.Has I.IsBelow I.OpGives I.OpOneGives I.ToGives I.KeepGives I.members_of) c.now }
        requires pure { IsPureIn (domain I.Has I.IsBelow I.OpGives I.OpOneGives I.ToGives I.KeepGives I.members_of) c.now e.now }
        requires changed { IsChangedOf c.now self.old }
        requires holds { MayHoldAll (domain I.Has I.IsBelow I.OpGives I.OpOneGives I.ToGives I.KeepGives I.members_of) c.now r set }
        ensures changed { IsChangedOf c.now self.new }
        ensures value { IfOk result (λ y. IsValWith (domain I.Has I.IsBelow I.OpGives I.OpOneGives I.ToGives I.KeepGives I.members_of) c.now r set e.now y) }
        ensures typed { IfOk result (λ y. (t : ValueType) → type_of c.now.program.now c.now.func.now.locals e.now ≡ Some t → AreOf (domain I.Has I.IsBelow I.OpGives I.OpOneGives I.ToGives I.KeepGives I.members_of) c.now.program.now.target t y) }
    {
        let other = Shared::new(alloc, Abs::Ints(set))?;
        self.registers[0] = r;
        self.sets[0] = other;
        let there = Context {
            program: c.program,
            id: c.id,
            func: c.func,
            registers: self.registers.as_slice(),
            sets: self.sets.as_slice(),
        };
        let value = value_of(alloc, &there, e);
        let Context {
            program: _,
            id: _,
            func: _,
            registers: _,
            sets: _,
        } = there;
        value
    }

    /// What an expression gives with a register at a number.
    fn value_at(
        &mut self,
        alloc: Global,
        c: &Context<'_, I>,
        e: &Expr,
        r: u32,
        m: &i128,
    ) -> Result<Abs<I>, NoMemory>
        requires sized { AreSized c.now.program.now.structures c.now.program.now.target }
        requires sets { HaveSetsIn (domain I.Has I.IsBelow I.OpGives I.OpOneGives I.ToGives I.KeepGives I.members_of) c.now }
        requires pure { IsPureIn (domain I.Has I.IsBelow I.OpGives I.OpOneGives I.ToGives I.KeepGives I.members_of) c.now e.now }
        requires changed { IsChangedOf c.now self.old }
        requires holds { MayHoldOne (domain I.Has I.IsBelow I.OpGives I.OpOneGives I.ToGives I.KeepGives I.members_of) c.now r m.now }
        ensures changed { IsChangedOf c.now self.new }
        ensures given { IfOk result (λ y. IsGivenAt (domain I.Has I.IsBelow I.OpGives I.OpOneGives I.ToGives I.KeepGives I.members_of) c.now e.now r m.now y) }
    {
        let one = I::one(alloc, *m);
        self.value_with(alloc, c, e, r, one)
    }

    /// What an expression gives with a register at each of some numbers.
    pub(crate) fn values_at(
        &mut self,
        alloc: Global,
        c: &Context<'_, I>,
        e: &Expr,
        r: u32,
        numbers: &[i128],
    ) -> Result<Vec<Abs<I>>, NoMemory>
        requires sized { AreSized c.now.program.now.structures c.now.program.now.target }
        requires sets { HaveSetsIn (domain I.Has I.IsBelow I.OpGives I.OpOneGives I.ToGives I.KeepGives I.members_of) c.now }
        requires pure { IsPureIn (domain I.Has I.IsBelow I.OpGives I.OpOneGives I.ToGives I.KeepGives I.members_of) c.now e.now }
        requires changed { IsChangedOf c.now self.old }
        requires holds { MayHoldEach (domain I.Has I.IsBelow I.OpGives I.OpOneGives I.ToGives I.KeepGives I.members_of) c.now r numbers.now }
        ensures changed { IsChangedOf c.now self.new }
        ensures given { IfOk result (λ values. AreGivenAt (domain I.Has I.IsBelow I.OpGives I.OpOneGives I.ToGives I.KeepGives I.members_of) c.now e.now r numbers.now values.items) }
    {
        let mut values = Vec::new(alloc);
        for m in numbers {
            let value = self.value_at(alloc, c, e, r, m)?;
            values.push(value)?;
        }
        Ok(values)
    }
}
