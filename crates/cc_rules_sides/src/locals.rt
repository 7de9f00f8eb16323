//! What a test leaves of the sets of registers.

ghost use Rattle.std.specs.Prelude.{◌≡◌, ◌↔◌, length, IfOk, IsTrue};
ghost use Rattle.cc_rules_sides.specs.Refined.{AllKeepAddresses, AreHeld, AreLeft, HasNumber, IsEmptied, IsOneEmptied, KeepsAddresses};
ghost use Rattle.cc_rules_tests.specs.Tested.{IsTested};
ghost use Rattle.cc_rules_tests.specs.Trials.{IsTrialOf};
ghost use Rattle.cc_rules_flows.specs.CcStateOperators.Domains.{domain};

use cc_program::num::NoMemory;
use cc_rules_flows::lattice::IntDomain;
use cc_rules_flows::places::Abs;
use cc_rules_flows::state_facts::Shared;
use cc_rules_tests::{Tested, Trial};
use std::alloc::Global;

/// The sets of registers, each as the test leaves it.
pub fn left_locals<I: IntDomain>(
    alloc: Global,
    tested: &Tested<'_, I>,
    trial: &mut Trial<I>,
    registers: &[u32],
    sets: &[Shared<Abs<I>>],
) -> Result<Vec<Shared<Abs<I>>>, NoMemory>
    requires tested { IsTested (domain I.Has I.IsBelow I.OpGives I.OpOneGives I.ToGives I.KeepGives I.members_of) tested.now }
    requires trial { IsTrialOf (domain I.Has I.IsBelow I.OpGives I.OpOneGives I.ToGives I.KeepGives I.members_of) tested.now.context.now tested.now.expression.now trial.old }
    requires each { length sets.now ≡ length registers.now }
    requires sets { AreHeld (domain I.Has I.IsBelow I.OpGives I.OpOneGives I.ToGives I.KeepGives I.members_of) tested.now.context.now registers.now sets.now }
    ensures trial { IsTrialOf (domain I.Has I.IsBelow I.OpGives I.OpOneGives I.ToGives I.KeepGives I.members_of) tested.now.context.now tested.now.expression.now trial.new }
    ensures left { IfOk result (λ left. AreLeft (domain I.Has I.IsBelow I.OpGives I.OpOneGives I.ToGives I.KeepGives I.members_of) tested.now registers.now sets.now left.items) }
{
    let mut left = Vec::new(alloc);
    for number in 0..registers.len() {
        let set = tested.left_of(alloc, trial, registers[number], &sets[number])?;
        left.push(set)?;
    }
    Ok(left)
}

/// Whether a set of integers has one.
fn has_number<I: IntDomain>(x: &I) -> bool
    ensures { IsTrue result ↔ HasNumber (domain I.Has I.IsBelow I.OpGives I.OpOneGives I.ToGives I.KeepGives I.members_of) x.now }
{
    x.bounds().is_some()
}

/// Whether a set of integers has none.
fn has_none<I: IntDomain>(x: &I) -> bool
    ensures { IsTrue result ↔ (HasNumber (domain I.Has I.IsBelow I.OpGives I.OpOneGives I.ToGives I.KeepGives I.members_of) x.now → ⊥) }
{
    !has_number(x)
}

/// Whether a set that has a value has none left.
fn is_emptied<I: IntDomain>(set: &Abs<I>, left: &Abs<I>) -> bool
    requires { KeepsAddresses set.now left.now }
    ensures { IsTrue result ↔ IsEmptied (domain I.Has I.IsBelow I.OpGives I.OpOneGives I.ToGives I.KeepGives I.members_of) set.now left.now }
{
    match set {
        Abs::Addrs(_) => false,
        Abs::Ints(x) => match left {
            Abs::Addrs(_) => false,
            Abs::Ints(z) => has_number(x) && has_none(z),
        },
    }
}

/// Whether one of some sets that has a value has none left.
pub fn is_one_emptied<I: IntDomain>(sets: &[Shared<Abs<I>>], left: &[Shared<Abs<I>>]) -> bool
    requires each { length sets.now ≡ length left.now }
    requires kinds { AllKeepAddresses sets.now left.now }
    ensures { IsTrue result ↔ IsOneEmptied (domain I.Has I.IsBelow I.OpGives I.OpOneGives I.ToGives I.KeepGives I.members_of) sets.now left.now }
{
    for number in 0..sets.len() {
        let set = sets[number].get();
        let rest = left[number].get();
        if is_emptied(set, rest) {
            return true;
        }
    }
    false
}
