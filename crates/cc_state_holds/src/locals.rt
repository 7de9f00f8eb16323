//! The scalars of locals that are no registers, by the keys of their positions.

ghost use Rattle.std.specs.Prelude.{◌≡◌, ◌↔◌, ◌<◌, ◌^◌, IsTrue, IfOk, Some, length, option_map, slice_get};
ghost use Rattle.std.specs.Option.{option_copied};
ghost use Rattle.cc_cells.specs.Cells.{cells_of};
ghost use Rattle.cc_program.specs.declared.func.Func.{Func as FuncOf};
ghost use Rattle.cc_proof_covers.specs.Covers.{AreLocalsIn};
ghost use Rattle.cc_state.specs.View.{view};
ghost use Rattle.cc_state_holds.specs.Parts.{good, AreWrittenIn, IsLocalIn, AreLocalListsIn};
ghost use Rattle.cc_state_reads.specs.CcStateKeys.Keys.{keys_of};
ghost use Rattle.cc_state_reads.specs.CcStateKeys.Tracked.{registers as registers_of};
ghost use Rattle.cc_state_reads.specs.CcStateOperators.Domains.{domain};
ghost use Rattle.cc_steps.specs.View.{active_of};
ghost use Rattle.cc_state_reads.specs.CcSyntax.Sound.{IsTypedProgram};

use crate::basis::Basis;
use crate::registers::is_register_among;
use crate::sets::is_scalar_in;
use cc_meaning::Activation;
use cc_program::num::{List, NoMemory, at};
use cc_program::{Func, Value};
use cc_state_reads::lattice::IntDomain;
use cc_state_reads::state_facts::Key;
use cc_state_scalars::local_keys;
use std::alloc::Global;

/// What stands at a position, if it was written.
fn written_at(values: &[Option<Value>], n: usize) -> Option<&Value>
    ensures { option_copied result ≡ good (slice_get values.now n) }
{
    match at(values, n) {
        None => None,
        Some(held) => held.as_ref(),
    }
}

/// Whether each scalar of a local that was written is in the whole-run set of its key.
fn are_written_in<I: IntDomain>(b: &Basis<I>, keys: &[Key], values: &[Option<Value>]) -> bool
    requires { b.now.facts.now.keys ≡ keys_of b.now.program.now }
    ensures { IsTrue result ↔ AreWrittenIn (domain I.Has I.IsBelow I.OpGives I.OpOneGives I.ToGives I.KeepGives I.members_of) b.now.program.now b.now.facts.now keys.now values.now }
{
    for (n, key) in keys.iter().enumerate() {
        if !is_scalar_in(b, *key, written_at(values, n)) {
            return false;
        }
    }
    true
}

/// Whether this is so of a local, if it is none of the registers.
fn is_local_in<I: IntDomain>(
    b: &Basis<I>,
    registers: &[u32],
    r: u32,
    keys: &[Key],
    held: Option<&Vec<Option<Value>>>,
) -> bool
    requires { b.now.facts.now.keys ≡ keys_of b.now.program.now }
    ensures { (f : FuncOf) → registers.now ≡ registers_of f → IsTrue result ↔ IsLocalIn (domain I.Has I.IsBelow I.OpGives I.OpOneGives I.ToGives I.KeepGives I.members_of) b.now.program.now b.now.facts.now f r keys.now (option_map (λ v. v.items) (option_copied held.entry)) }
{
    if is_register_among(registers, r) {
        return true;
    }
    match held {
        None => true,
        Some(values) => are_written_in(b, keys, values.as_slice()),
    }
}

/// Whether this is so of each local.
fn are_local_lists_in<I: IntDomain>(
    b: &Basis<I>,
    registers: &[u32],
    keys: &[List<Key>],
    locals: &[Vec<Option<Value>>],
) -> bool
    requires keys { b.now.facts.now.keys ≡ keys_of b.now.program.now }
    requires few { length keys.now < 2 ^ 32 }
    ensures { (f : FuncOf) → registers.now ≡ registers_of f → IsTrue result ↔ AreLocalListsIn (domain I.Has I.IsBelow I.OpGives I.OpOneGives I.ToGives I.KeepGives I.members_of) b.now.program.now b.now.facts.now f keys.now (cells_of locals.now) }
{
    for (r, keys) in keys.iter().enumerate() {
        if !is_local_in(b, registers, r as u32, keys.all(), at(locals, r)) {
            return false;
        }
    }
    true
}

/// Whether the locals of an activation that are no registers lie in the facts. These are the registers of its function.
pub fn are_locals_in<I: IntDomain>(
    alloc: Global,
    b: &Basis<I>,
    f: &Func,
    registers: &[u32],
    a: &Activation,
) -> Result<bool, NoMemory>
    requires typed { IsTypedProgram b.now.program.now }
    requires keys { b.now.facts.now.keys ≡ keys_of b.now.program.now }
    requires there { slice_get b.now.program.now.funcs a.now.func ≡ Some f.now }
    requires registers { registers.now ≡ registers_of f.now }
    ensures { IfOk result (λ yes. IsTrue yes ↔ AreLocalsIn b.now.program.now (view (domain I.Has I.IsBelow I.OpGives I.OpOneGives I.ToGives I.KeepGives I.members_of) b.now.program.now b.now.facts.now) f.now (active_of a.now)) }
{
    let keys = local_keys(alloc, b.program, a.func, f)?;
    Ok(are_local_lists_in(b, registers, keys.all(), &a.locals))
}
