//! What an access to a place may give at a point.

ghost use Rattle.std.specs.Prelude.{◌≡◌, ◌<◌, ◌^◌, ℕ, Some, option_map, option_and_then, length, is_some, true, IfOk, slice_get};
ghost use Rattle.cc_program.specs.declared.expr.Place.{out-Place};
ghost use Rattle.cc_state_keys.specs.CcStateFacts.Facts.{cell_at};
ghost use Rattle.cc_state_keys.specs.Keys.{keys_of};
ghost use Rattle.cc_state_keys.specs.Tracked.{tracked as tracked_of};
ghost use Rattle.cc_state_values.specs.CcStateOperators.Domains.{domain};
ghost use Rattle.cc_state_reads.specs.Contexts.{IsReadIn, IsByKeysIn, HaveKind, ReadsScalar};
ghost use Rattle.cc_state_reads.specs.Reads.{object_in as object_in_of, device_number as device_number_of, IsOfDevice};
ghost use Rattle.cc_state_values.specs.Contexts.{HaveSetsIn, IsPurePlaceIn};
ghost use Rattle.cc_state_keys.specs.CcSyntax.Programs.{place_type as place_type_of};
ghost use Rattle.cc_state_keys.specs.CcSyntax.Sizes.{AreSized};
ghost use Rattle.cc_state_keys.specs.CcSyntax.Values.{read_from};
ghost use Rattle.cc_state_keys.specs.CcTyped.View.{value_view};

use crate::named::keys_named;
use crate::unions::{none_of, union_of};
use cc_program::num::{NoMemory, at};
use cc_program::{Place, Program};
use cc_state_keys::number_in;
use cc_state_keys::state_facts::Facts;
use cc_state_keys::typed_crate::{Scope, ValueType};
use cc_state_values::Context;
use cc_state_values::lattice::{IntDomain, copied};
use cc_state_values::places::Abs;
use std::alloc::Global;

/// Which of some static objects a place is, by position.
fn object_in(objects: &[u32], a: &Place) -> Option<usize>
    ensures { result ≡ object_in_of objects.now (out-Place a.now) }
{
    match a {
        Place::Static(i) => number_in(objects, *i),
        _ => None,
    }
}

/// Which device it is.
fn device_number(a: &Place) -> Option<u32>
    ensures { result ≡ device_number_of (out-Place a.now) }
{
    match a {
        Place::Device(n) => Some(*n),
        _ => None,
    }
}

/// The point's set of a tracked cell.
fn set_of_cell<I: IntDomain>(
    alloc: Global,
    facts: &Facts<I>,
    point: u32,
    cell: usize,
) -> Result<Abs<I>, NoMemory>
    requires few { cell < 2 ^ 32 }
    requires reached { is_some (cell_at facts.now point cell) ≡ true }
    ensures { IfOk result (λ y. cell_at facts.now point cell ≡ Some y) }
{
    match facts.cell(point, cell as u32) {
        None => unreachable!(),
        Some(set) => copied(alloc, set),
    }
}

/// All values that a device may have.
fn set_of_device<I: IntDomain>(alloc: Global, p: &Program, n: u32) -> Abs<I>
    requires { is_some (slice_get p.now.devices n) ≡ true }
    ensures { IsOfDevice (domain I.Has I.IsBelow I.OpGives I.OpOneGives I.ToGives I.KeepGives I.members_of) p.now n result }
{
    match at(p.devices.all(), n as usize) {
        None => unreachable!(),
        Some(device) => Abs::Ints(I::whole(alloc, device.int, &p.target)),
    }
}

/// The type of what an access to a place gives.
fn type_read<'a, 'p: 'a, I>(c: &Context<'p, I>, a: &'a Place) -> Option<ValueType<'a>>
    requires { AreSized c.now.program.now.structures c.now.program.now.target }
    ensures { option_map value_view result ≡ option_and_then read_from (place_type_of c.now.program.now c.now.func.now.locals a.now) }
{
    let scope = Scope {
        program: c.program,
        locals: c.func.locals.all(),
    };
    scope.place_type(a)?.read()
}

/// The union of the whole-run sets of the keys that a place names.
fn set_of_keys<I: IntDomain>(
    alloc: Global,
    c: &Context<'_, I>,
    facts: &Facts<I>,
    a: &Place,
) -> Result<Abs<I>, NoMemory>
    requires sized { AreSized c.now.program.now.structures c.now.program.now.target }
    requires sets { HaveSetsIn (domain I.Has I.IsBelow I.OpGives I.OpOneGives I.ToGives I.KeepGives I.members_of) c.now }
    requires pure { IsPurePlaceIn (domain I.Has I.IsBelow I.OpGives I.OpOneGives I.ToGives I.KeepGives I.members_of) c.now a.now }
    requires scalar { ReadsScalar c.now a.now }
    requires keys { facts.now.keys ≡ keys_of c.now.program.now }
    requires kinds { HaveKind (domain I.Has I.IsBelow I.OpGives I.OpOneGives I.ToGives I.KeepGives I.members_of) c.now facts.now a.now }
    ensures { IfOk result (λ y. IsByKeysIn (domain I.Has I.IsBelow I.OpGives I.OpOneGives I.ToGives I.KeepGives I.members_of) c.now facts.now a.now y) }
{
    let named = keys_named(alloc, c, facts.keys.all(), a)?;
    match type_read(c, a) {
        None => unreachable!(),
        Some(t) => union_of(alloc, none_of(alloc, t), c.program, facts, named.all()),
    }
}

/// What an access to a place may give, where the registers of the function hold values of the point's sets. Asked for: facts of the
/// program, with a set of the place's kind for each key that it names, and a point that is reached.
pub fn read_of<I: IntDomain>(
    alloc: Global,
    c: &Context<'_, I>,
    facts: &Facts<I>,
    point: u32,
    tracked: &[u32],
    a: &Place,
) -> Result<Abs<I>, NoMemory>
    requires sized { AreSized c.now.program.now.structures c.now.program.now.target }
    requires sets { HaveSetsIn (domain I.Has I.IsBelow I.OpGives I.OpOneGives I.ToGives I.KeepGives I.members_of) c.now }
    requires pure { IsPurePlaceIn (domain I.Has I.IsBelow I.OpGives I.OpOneGives I.ToGives I.KeepGives I.members_of) c.now a.now }
    requires scalar { ReadsScalar c.now a.now }
    requires keys { facts.now.keys ≡ keys_of c.now.program.now }
    requires tracked { tracked.now ≡ tracked_of c.now.program.now }
    requires reached { (cell : ℕ) → cell < length tracked.now → is_some (cell_at facts.now point cell) ≡ true }
    requires kinds { HaveKind (domain I.Has I.IsBelow I.OpGives I.OpOneGives I.ToGives I.KeepGives I.members_of) c.now facts.now a.now }
    ensures { IfOk result (λ y. IsReadIn (domain I.Has I.IsBelow I.OpGives I.OpOneGives I.ToGives I.KeepGives I.members_of) c.now facts.now point a.now y) }
{
    match object_in(tracked, a) {
        Some(cell) => set_of_cell(alloc, facts, point, cell),
        None => match device_number(a) {
            Some(n) => Ok(set_of_device(alloc, c.program, n)),
            None => set_of_keys(alloc, c, facts, a),
        },
    }
}
