//! Whether the sets of keys, of functions' results, of registers and of tracked cells are of values of their types.

ghost use Rattle.std.specs.Prelude.{◌≡◌, ◌↔◌, IsTrue, Some, length, slice_get};
ghost use Rattle.cc_state.specs.Shape.{AreSets, IsKeyType, IsResultType, IsRegisterType, IsTrackedType};
ghost use Rattle.cc_state_reads.specs.CcStateFacts.Facts.{cell_of};
ghost use Rattle.cc_state_reads.specs.CcStateKeys.Tracked.{registers as registers_of};
ghost use Rattle.cc_state_reads.specs.CcStateOperators.Domains.{domain};
ghost use Rattle.cc_state_shaped.specs.Layout.{IsLayoutOf};
ghost use Rattle.cc_state_shaped.specs.Parts.{IsSetOf, IsSetAt};

use crate::keys::ctype_of;
use crate::layout::Layout;
use crate::sets::{is_cell_set, is_set_of};
use cc_program::Func;
use cc_program::num::at;
use cc_state_reads::lattice::IntDomain;
use cc_state_reads::places::Abs;
use cc_state_reads::state_facts::{PointFact, Shared};
use cc_state_reads::typed::{result_value, scalar_value};

/// Whether a set is of what the cells of the key at a place hold.
fn is_key_set<I: IntDomain>(layout: &Layout<'_>, number: usize, set: &Abs<I>) -> bool
    requires { IsLayoutOf layout.now.program.now layout.now }
    ensures { IsTrue result ↔ IsSetOf (domain I.Has I.IsBelow I.OpGives I.OpOneGives I.ToGives I.KeepGives I.members_of) layout.now.program.now
        (IsKeyType (domain I.Has I.IsBelow I.OpGives I.OpOneGives I.ToGives I.KeepGives I.members_of) layout.now.program.now number) set.now }
{
    match at(layout.keys.all(), number) {
        None => false,
        Some(key) => match ctype_of(layout.program, *key) {
            None => false,
            Some(t) => is_cell_set(layout, t, set),
        },
    }
}

/// Whether each of some sets is of what the cells of the key at its place hold.
pub(crate) fn are_key_sets<I: IntDomain>(layout: &Layout<'_>, sets: &[Abs<I>]) -> bool
    requires { IsLayoutOf layout.now.program.now layout.now }
    ensures { IsTrue result ↔ AreSets (domain I.Has I.IsBelow I.OpGives I.OpOneGives I.ToGives I.KeepGives I.members_of) layout.now.program.now (length sets.now) (slice_get sets.now)
        (IsKeyType (domain I.Has I.IsBelow I.OpGives I.OpOneGives I.ToGives I.KeepGives I.members_of) layout.now.program.now) }
{
    for (number, set) in sets.iter().enumerate() {
        if !is_key_set(layout, number, set) {
            return false;
        }
    }
    true
}

/// Whether a set is of what the function at a place gives.
fn is_result_set<I: IntDomain>(layout: &Layout<'_>, id: usize, set: &Abs<I>) -> bool
    requires { IsLayoutOf layout.now.program.now layout.now }
    ensures { IsTrue result ↔ IsSetOf (domain I.Has I.IsBelow I.OpGives I.OpOneGives I.ToGives I.KeepGives I.members_of) layout.now.program.now
        (IsResultType (domain I.Has I.IsBelow I.OpGives I.OpOneGives I.ToGives I.KeepGives I.members_of) layout.now.program.now id) set.now }
{
    match at(layout.program.funcs.all(), id) {
        None => false,
        Some(func) => is_set_of(layout, result_value(&func.sig.result), set),
    }
}

/// Whether each of some sets is of what the function at its place gives.
pub(crate) fn are_result_sets<I: IntDomain>(layout: &Layout<'_>, sets: &[Abs<I>]) -> bool
    requires { IsLayoutOf layout.now.program.now layout.now }
    ensures { IsTrue result ↔ AreSets (domain I.Has I.IsBelow I.OpGives I.OpOneGives I.ToGives I.KeepGives I.members_of) layout.now.program.now (length sets.now) (slice_get sets.now)
        (IsResultType (domain I.Has I.IsBelow I.OpGives I.OpOneGives I.ToGives I.KeepGives I.members_of) layout.now.program.now) }
{
    for (id, set) in sets.iter().enumerate() {
        if !is_result_set(layout, id, set) {
            return false;
        }
    }
    true
}

/// Whether a set is of what the register at a place among a function's holds.
fn is_register_set<I: IntDomain>(
    layout: &Layout<'_>,
    f: &Func,
    registers: &[u32],
    number: usize,
    set: &Abs<I>,
) -> bool
    requires layout { IsLayoutOf layout.now.program.now layout.now }
    requires registers { registers.now ≡ registers_of f.now }
    ensures { IsTrue result ↔ IsSetOf (domain I.Has I.IsBelow I.OpGives I.OpOneGives I.ToGives I.KeepGives I.members_of) layout.now.program.now
        (IsRegisterType (domain I.Has I.IsBelow I.OpGives I.OpOneGives I.ToGives I.KeepGives I.members_of) layout.now.program.now f.now number) set.now }
{
    match at(registers, number) {
        None => false,
        Some(register) => match at(f.locals.all(), *register as usize) {
            None => false,
            Some(local) => is_set_of(layout, scalar_value(&local.1), set),
        },
    }
}

/// Whether each of some sets is of what the register at its place among a function's holds.
pub(crate) fn are_register_sets<I: IntDomain>(
    layout: &Layout<'_>,
    f: &Func,
    registers: &[u32],
    sets: &[Shared<Abs<I>>],
) -> bool
    requires layout { IsLayoutOf layout.now.program.now layout.now }
    requires registers { registers.now ≡ registers_of f.now }
    ensures { IsTrue result ↔ AreSets (domain I.Has I.IsBelow I.OpGives I.OpOneGives I.ToGives I.KeepGives I.members_of) layout.now.program.now (length sets.now) (slice_get sets.now)
        (IsRegisterType (domain I.Has I.IsBelow I.OpGives I.OpOneGives I.ToGives I.KeepGives I.members_of) layout.now.program.now f.now) }
{
    for (number, set) in sets.iter().enumerate() {
        if !is_register_set(layout, f, registers, number, set.get()) {
            return false;
        }
    }
    true
}

/// Whether a set is of what the tracked cell at a place holds.
fn is_tracked_set<I: IntDomain>(layout: &Layout<'_>, number: usize, set: &Abs<I>) -> bool
    requires { IsLayoutOf layout.now.program.now layout.now }
    ensures { IsTrue result ↔ IsSetOf (domain I.Has I.IsBelow I.OpGives I.OpOneGives I.ToGives I.KeepGives I.members_of) layout.now.program.now
        (IsTrackedType (domain I.Has I.IsBelow I.OpGives I.OpOneGives I.ToGives I.KeepGives I.members_of) layout.now.program.now number) set.now }
{
    match at(layout.tracked.all(), number) {
        None => false,
        Some(object) => match at(layout.program.objects.all(), *object as usize) {
            None => false,
            Some(object) => is_set_of(layout, scalar_value(&object.ctype), set),
        },
    }
}

/// Whether there is a set of the tracked cell at a place, of what the cell holds.
fn has_cell_set<I: IntDomain>(layout: &Layout<'_>, fact: &PointFact<I>, number: u32) -> bool
    requires { IsLayoutOf layout.now.program.now layout.now }
    ensures { IsTrue result ↔ IsSetAt (domain I.Has I.IsBelow I.OpGives I.OpOneGives I.ToGives I.KeepGives I.members_of) layout.now.program.now (cell_of fact.now)
        (IsTrackedType (domain I.Has I.IsBelow I.OpGives I.OpOneGives I.ToGives I.KeepGives I.members_of) layout.now.program.now) number }
{
    match fact.cell(number) {
        None => false,
        Some(set) => is_tracked_set(layout, number as usize, set),
    }
}

/// Whether each of so many tracked cells has a set of what it holds.
pub(crate) fn have_cell_sets<I: IntDomain>(
    layout: &Layout<'_>,
    fact: &PointFact<I>,
    count: u32,
) -> bool
    requires { IsLayoutOf layout.now.program.now layout.now }
    ensures { IsTrue result ↔ AreSets (domain I.Has I.IsBelow I.OpGives I.OpOneGives I.ToGives I.KeepGives I.members_of) layout.now.program.now count (cell_of fact.now)
        (IsTrackedType (domain I.Has I.IsBelow I.OpGives I.OpOneGives I.ToGives I.KeepGives I.members_of) layout.now.program.now) }
{
    for number in 0..count {
        if !has_cell_set(layout, fact, number) {
            return false;
        }
    }
    true
}
