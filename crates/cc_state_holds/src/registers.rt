//! Registers and the sets that a point has of them.

ghost use Rattle.std.specs.Prelude.{◌≡◌, ◌↔◌, IsTrue};
ghost use Rattle.std.specs.Option.{option_copied};
ghost use Rattle.cc_program.specs.declared.func.Func.{Func as FuncOf};
ghost use Rattle.cc_proof_covers.specs.Pending.{value_in as value_in_of};
ghost use Rattle.cc_state_reads.specs.CcStateFacts.Facts.{local_of};
ghost use Rattle.cc_state_holds.specs.Parts.{IsInRegisterSet, IsRegisterHeld, AreRegistersHeld};
ghost use Rattle.cc_state_reads.specs.CcStateKeys.Tracked.{registers as registers_of};
ghost use Rattle.cc_state_reads.specs.CcStateOperators.Domains.{domain};
ghost use Rattle.cc_steps.specs.View.{active_of};
ghost use Rattle.cc_state_reads.specs.CcSyntax.Registers.{is_register};

use crate::pending::value_in;
use crate::sets::has;
use cc_meaning::Activation;
use cc_program::Value;
use cc_program::num::at;
use cc_state_reads::lattice::IntDomain;
use cc_state_reads::places::Abs;
use cc_state_reads::state_facts::PointFact;
use cc_state_reads::state_keys::number_in;

/// Whether a local is one of the registers of its function.
pub fn is_register_among(registers: &[u32], r: u32) -> bool
    ensures { (f : FuncOf) → registers.now ≡ registers_of f → result ≡ is_register f r }
{
    number_in(registers, r).is_some()
}

/// The set of a register at a point.
fn local<I>(fact: &PointFact<I>, number: usize) -> Option<&Abs<I>>
    ensures { option_copied result ≡ local_of fact.now number }
{
    let set = at(fact.locals.all(), number)?;
    Some(set.get())
}

/// Whether a value is in the set of a register, by its position among the registers of a point's function.
pub fn is_in_register_set<I: IntDomain>(
    fact: &PointFact<I>,
    registers: &[u32],
    r: u32,
    value: &Value,
) -> bool
    ensures { (f : FuncOf) → registers.now ≡ registers_of f → IsTrue result ↔ IsInRegisterSet (domain I.Has I.IsBelow I.OpGives I.OpOneGives I.ToGives I.KeepGives I.members_of) fact.now f r value.now }
{
    match number_in(registers, r) {
        None => false,
        Some(number) => has(local(fact, number), value),
    }
}

/// Whether what a register holds, if it was written, is.
fn is_register_held<I: IntDomain>(
    fact: &PointFact<I>,
    registers: &[u32],
    r: u32,
    held: Option<&Value>,
) -> bool
    ensures { (f : FuncOf) → registers.now ≡ registers_of f → IsTrue result ↔ IsRegisterHeld (domain I.Has I.IsBelow I.OpGives I.OpOneGives I.ToGives I.KeepGives I.members_of) fact.now f r (option_copied held.entry) }
{
    match held {
        None => true,
        Some(value) => is_in_register_set(fact, registers, r, value),
    }
}

/// Whether this is so of each of some registers of an activation, once a result is written.
pub fn are_registers_held<'a, I: IntDomain>(
    fact: &PointFact<I>,
    registers: &[u32],
    own: &[u32],
    a: &'a Activation,
    pending: Option<&'a (u32, Value)>,
) -> bool
    ensures { (f : FuncOf) → registers.now ≡ registers_of f → IsTrue result ↔ AreRegistersHeld (domain I.Has I.IsBelow I.OpGives I.OpOneGives I.ToGives I.KeepGives I.members_of) fact.now f own.now (value_in_of (option_copied pending.entry) (active_of a.now)) }
{
    for r in own {
        if !is_register_held(fact, registers, *r, value_in(pending, a, *r)) {
            return false;
        }
    }
    true
}
