//! The operands that an activation has read, and the sets of what was read.

ghost use Rattle.std.specs.Prelude.{◌≡◌, ◌↔◌, ℕ, IsTrue, IfOk, Some, true, is_some, slice_get};
ghost use Rattle.std.specs.Option.{option_copied};
ghost use Rattle.cc_cells.specs.Counts.{counted};
ghost use Rattle.cc_state_reads.specs.CcEval.View.{progress_of as stage_of};
ghost use Rattle.cc_program.specs.CcNum.Integers.{converted};
ghost use Rattle.cc_program.specs.declared.func.Func.{Func as FuncOf};
ghost use Rattle.cc_program.specs.declared.value.Cell.TheVariants as cell_form;
ghost use Rattle.cc_program.specs.declared.value.Root.TheVariants as root;
ghost use Rattle.cc_proof_covers.specs.Covers.{IsDeviceValue, WasIn};
ghost use Rattle.cc_state.specs.View.{view, StaticAt, LocalOf};
ghost use Rattle.cc_state_holds.specs.Basis.{IsBasis, IsPlace};
ghost use Rattle.cc_state_holds.specs.Parts.{IsInCellSet, IsInRegisterSet, IsListedIn, WasLocalIn, WasReadIn, IsReadIn, AreReadsIn, cell_read as cell_read_of, cell_waited as cell_waited_of, value_given as value_given_of};
ghost use Rattle.cc_state_reads.specs.CcStateKeys.Keys.{keys_of};
ghost use Rattle.cc_state_reads.specs.CcStateKeys.Tracked.{registers as registers_of, tracked as tracked_of, tracked_number};
ghost use Rattle.cc_state_reads.specs.CcStateOperators.Domains.{domain};
ghost use Rattle.cc_flow_sound.specs.CcStates.States.{expression_of};
ghost use Rattle.cc_steps.specs.State.{Active};
ghost use Rattle.cc_steps.specs.Step.{cell_position, progress_at as progress_at_of};
ghost use Rattle.cc_steps.specs.View.{active_of};
ghost use Rattle.cc_state_reads.specs.CcSyntax.Registers.{is_register};

use crate::basis::{Basis, Reached};
use crate::memory::is_in_cell_set;
use crate::registers::{is_in_register_set, is_register_among};
use crate::sets::is_scalar_in;
use cc_cells::position;
use cc_meaning::Activation;
use cc_program::num::{IntType, NoMemory, Target, at, convert};
use cc_program::{Cell, Func, Part, Program, Root, Value};
use cc_state_reads::eval::{Action, Mark, Stage, object_type};
use cc_state_reads::lattice::IntDomain;
use cc_state_reads::state_facts::Key;
use cc_state_reads::state_keys::{number_in, registers};
use cc_state_scalars::local_keys;
use cc_steps::progress_at;
use std::alloc::Global;

/// A local of an activation.
#[derive(Clone, Copy)]
struct Auto {
    activation: u64,
    func: u32,
    local: u32,
}

/// The cell that a step reads.
fn cell_read(action: &Action) -> Option<&Cell>
    ensures { option_copied result ≡ cell_read_of action.now }
{
    match action {
        Action::Read(from, _) => Some(from),
        _ => None,
    }
}

/// The cell that is read next.
fn cell_waited<'s>(stage: &'s Stage<'_, Option<Value>>) -> Option<&'s Cell>
    ensures { option_copied result ≡ cell_waited_of (stage_of stage.now) }
{
    match stage {
        Stage::Waits(action) => cell_read(action.get()),
        Stage::Known(_, _) => None,
        Stage::Traps(_) => None,
    }
}

/// The value that a mark gave, where it gave a good one.
fn value_given(mark: &Mark) -> Option<&Value>
    ensures { option_copied result ≡ value_given_of mark.now }
{
    match mark {
        Mark::Gave(value) => value.as_ref(),
        Mark::Did => None,
        Mark::Chose(_) => None,
    }
}

/// Whether a number is converted to itself.
fn is_kept(v: i128, int: IntType, target: &Target) -> bool
    ensures { IsTrue result ↔ (converted v int target.now ≡ v) }
{
    convert(v, int, target) == v
}

/// Whether a device may have given a value.
fn is_device_value(p: &Program, d: u32, value: &Value) -> bool
    ensures { IsTrue result ↔ IsDeviceValue p.now d value.now }
{
    match at(p.devices.all(), d as usize) {
        None => false,
        Some(device) => match value {
            Value::Int(v) => is_kept(*v, device.int, &p.target),
            Value::Place(_) => false,
        },
    }
}

/// Where a scalar of an object stands, up to `usize::MAX`.
fn position_of(p: &Program, object: Root, path: &[Part]) -> usize
    ensures { result ≡ counted (cell_position p.now object path.now) }
{
    position(p.structures.all(), path, object_type(p, object))
}

/// The key that is listed at a position.
#[tactic(auto, using(cc_cells::proofs::CellLemmas::of_positions))]
fn key_at(keys: &[Key], position: usize) -> Option<&Key>
    ensures { (n : ℕ) → counted n ≡ position → option_copied result ≡ slice_get keys.now n }
{
    if position < keys.len() {
        Some(&keys[position])
    } else {
        None
    }
}

/// Whether a value is in the whole-run set of the key at a position, where a key is listed there.
fn is_in_listed<I: IntDomain>(b: &Basis<I>, keys: &[Key], position: usize, value: &Value) -> bool
    requires { b.now.facts.now.keys ≡ keys_of b.now.program.now }
    ensures { (n : ℕ) → counted n ≡ position → IsTrue result ↔ IsListedIn (domain I.Has I.IsBelow I.OpGives I.OpOneGives I.ToGives I.KeepGives I.members_of) b.now.program.now b.now.facts.now keys.now n value.now }
{
    match key_at(keys, position) {
        None => true,
        Some(key) => is_scalar_in(b, *key, Some(value)),
    }
}

/// Whether a value is in the whole-run set of the scalar at a position of a static object.
fn is_static_at<I: IntDomain>(b: &Basis<I>, i: u32, position: usize, value: &Value) -> bool
    requires { IsBasis (domain I.Has I.IsBelow I.OpGives I.OpOneGives I.ToGives I.KeepGives I.members_of) b.now }
    ensures { (n : ℕ) → counted n ≡ position → IsTrue result ↔ StaticAt (domain I.Has I.IsBelow I.OpGives I.OpOneGives I.ToGives I.KeepGives I.members_of) b.now.program.now b.now.facts.now i n value.now }
{
    match at(b.objects, i as usize) {
        None => true,
        Some(keys) => is_in_listed(b, keys.all(), position, value),
    }
}

/// Whether a value is in the set of an object, if that is tracked.
fn is_in_tracked<I: IntDomain>(b: &Basis<I>, place: &Reached<I>, i: u32, value: &Value) -> bool
    requires { b.now.tracked.now ≡ tracked_of b.now.program.now }
    ensures { IsTrue result ↔ (is_some (tracked_number b.now.program.now i) ≡ true → IsInCellSet (domain I.Has I.IsBelow I.OpGives I.OpOneGives I.ToGives I.KeepGives I.members_of) b.now.program.now place.now.fact.now i value.now) }
{
    match number_in(b.tracked, i) {
        None => true,
        Some(_) => is_in_cell_set(b, place.fact, i, value),
    }
}

/// Whether what was read of a static object is in the sets of what was read.
fn was_static_in<I: IntDomain>(
    b: &Basis<I>,
    place: &Reached<I>,
    i: u32,
    path: &[Part],
    value: &Value,
) -> bool
    requires basis { IsBasis (domain I.Has I.IsBelow I.OpGives I.OpOneGives I.ToGives I.KeepGives I.members_of) b.now }
    requires place { IsPlace (domain I.Has I.IsBelow I.OpGives I.OpOneGives I.ToGives I.KeepGives I.members_of) b.now place.now }
    ensures { (a : Active) (f : FuncOf) → IsTrue result ↔ WasIn b.now.program.now (view (domain I.Has I.IsBelow I.OpGives I.OpOneGives I.ToGives I.KeepGives I.members_of) b.now.program.now b.now.facts.now) a f place.now.number (cell_form.At (root.Static i) path.now) value.now }
{
    let stands = position_of(b.program, Root::Static(i), path);
    if !is_static_at(b, i, stands, value) {
        return false;
    }
    is_in_tracked(b, place, i, value)
}

/// Whether a value is in the whole-run set of the scalar at a position of a local of a function.
fn is_local_at<I: IntDomain>(
    alloc: Global,
    b: &Basis<I>,
    local: Auto,
    f: &Func,
    position: usize,
    value: &Value,
) -> Result<bool, NoMemory>
    requires basis { IsBasis (domain I.Has I.IsBelow I.OpGives I.OpOneGives I.ToGives I.KeepGives I.members_of) b.now }
    requires there { slice_get b.now.program.now.funcs local.func ≡ Some f.now }
    ensures { IfOk result (λ yes. (n : ℕ) → counted n ≡ position → IsTrue yes ↔ LocalOf (domain I.Has I.IsBelow I.OpGives I.OpOneGives I.ToGives I.KeepGives I.members_of) b.now.program.now b.now.facts.now local.func local.local n value.now) }
{
    let lists = local_keys(alloc, b.program, local.func, f)?;
    match at(lists.all(), local.local as usize) {
        None => Ok(true),
        Some(keys) => Ok(is_in_listed(b, keys.all(), position, value)),
    }
}

/// Whether what was read of a local is in the whole-run set of its key, where it is no register of its function.
fn is_local_value<I: IntDomain>(
    alloc: Global,
    b: &Basis<I>,
    local: Auto,
    f: &Func,
    path: &[Part],
    value: &Value,
) -> Result<bool, NoMemory>
    requires basis { IsBasis (domain I.Has I.IsBelow I.OpGives I.OpOneGives I.ToGives I.KeepGives I.members_of) b.now }
    requires there { slice_get b.now.program.now.funcs local.func ≡ Some f.now }
    ensures { IfOk result (λ yes. IsTrue yes ↔ WasLocalIn (domain I.Has I.IsBelow I.OpGives I.OpOneGives I.ToGives I.KeepGives I.members_of) b.now.program.now b.now.facts.now local.activation local.func local.local path.now value.now) }
{
    let registers = registers(alloc, f)?;
    if is_register_among(&registers, local.local) {
        return Ok(true);
    }
    let object = Root::Auto {
        activation: local.activation,
        func: local.func,
        local: local.local,
    };
    let stands = position_of(b.program, object, path);
    is_local_at(alloc, b, local, f, stands, value)
}

/// Whether what was read of a local is in the whole-run set of its key, where its function is there and it is no register of
/// that.
fn was_local_in<I: IntDomain>(
    alloc: Global,
    b: &Basis<I>,
    local: Auto,
    path: &[Part],
    value: &Value,
) -> Result<bool, NoMemory>
    requires { IsBasis (domain I.Has I.IsBelow I.OpGives I.OpOneGives I.ToGives I.KeepGives I.members_of) b.now }
    ensures { IfOk result (λ yes. IsTrue yes ↔ WasLocalIn (domain I.Has I.IsBelow I.OpGives I.OpOneGives I.ToGives I.KeepGives I.members_of) b.now.program.now b.now.facts.now local.activation local.func local.local path.now value.now) }
{
    match at(b.program.funcs.all(), local.func as usize) {
        None => Ok(true),
        Some(f) => is_local_value(alloc, b, local, f, path, value),
    }
}

/// Whether what was read of a local is in its set at the point, where it is a register of the activation itself.
fn was_register_in<I: IntDomain>(
    place: &Reached<I>,
    a: &Activation,
    own: &[u32],
    local: Auto,
    value: &Value,
) -> bool
    ensures { (f g : FuncOf) → place.now.registers.now ≡ registers_of f → own.now ≡ registers_of g → IsTrue result ↔ (local.activation ≡ a.now.number → is_register g local.local ≡ true → IsInRegisterSet (domain I.Has I.IsBelow I.OpGives I.OpOneGives I.ToGives I.KeepGives I.members_of) place.now.fact.now f local.local value.now) }
{
    if local.activation != a.number {
        return true;
    }
    if !is_register_among(own, local.local) {
        return true;
    }
    is_in_register_set(place.fact, place.registers, local.local, value)
}

/// Whether what was read of a local is in the sets of what was read.
fn was_auto_in<I: IntDomain>(
    alloc: Global,
    b: &Basis<I>,
    place: &Reached<I>,
    a: &Activation,
    own: &[u32],
    local: Auto,
    path: &[Part],
    value: &Value,
) -> Result<bool, NoMemory>
    requires basis { IsBasis (domain I.Has I.IsBelow I.OpGives I.OpOneGives I.ToGives I.KeepGives I.members_of) b.now }
    requires place { IsPlace (domain I.Has I.IsBelow I.OpGives I.OpOneGives I.ToGives I.KeepGives I.members_of) b.now place.now }
    ensures { IfOk result (λ yes. (f : FuncOf) → own.now ≡ registers_of f → IsTrue yes ↔ WasIn b.now.program.now (view (domain I.Has I.IsBelow I.OpGives I.OpOneGives I.ToGives I.KeepGives I.members_of) b.now.program.now b.now.facts.now) (active_of a.now) f place.now.number (cell_form.At (root.Auto local.activation local.func local.local) path.now) value.now) }
{
    if !was_register_in(place, a, own, local, value) {
        return Ok(false);
    }
    was_local_in(alloc, b, local, path, value)
}

/// Whether what was read of an object is in the sets of what was read.
fn was_object_in<I: IntDomain>(
    alloc: Global,
    b: &Basis<I>,
    place: &Reached<I>,
    a: &Activation,
    own: &[u32],
    object: Root,
    path: &[Part],
    value: &Value,
) -> Result<bool, NoMemory>
    requires basis { IsBasis (domain I.Has I.IsBelow I.OpGives I.OpOneGives I.ToGives I.KeepGives I.members_of) b.now }
    requires place { IsPlace (domain I.Has I.IsBelow I.OpGives I.OpOneGives I.ToGives I.KeepGives I.members_of) b.now place.now }
    ensures { IfOk result (λ yes. (f : FuncOf) → own.now ≡ registers_of f → IsTrue yes ↔ WasIn b.now.program.now (view (domain I.Has I.IsBelow I.OpGives I.OpOneGives I.ToGives I.KeepGives I.members_of) b.now.program.now b.now.facts.now) (active_of a.now) f place.now.number (cell_form.At object path.now) value.now) }
{
    match object {
        Root::Static(i) => Ok(was_static_in(b, place, i, path, value)),
        Root::Auto {
            activation,
            func,
            local,
        } => {
            let local = Auto {
                activation,
                func,
                local,
            };
            was_auto_in(alloc, b, place, a, own, local, path, value)
        }
    }
}

/// Whether what a cell gave is in the sets of what was read.
fn was_in<I: IntDomain>(
    alloc: Global,
    b: &Basis<I>,
    place: &Reached<I>,
    a: &Activation,
    own: &[u32],
    from: &Cell,
    value: &Value,
) -> Result<bool, NoMemory>
    requires basis { IsBasis (domain I.Has I.IsBelow I.OpGives I.OpOneGives I.ToGives I.KeepGives I.members_of) b.now }
    requires place { IsPlace (domain I.Has I.IsBelow I.OpGives I.OpOneGives I.ToGives I.KeepGives I.members_of) b.now place.now }
    ensures { IfOk result (λ yes. (f : FuncOf) → own.now ≡ registers_of f → IsTrue yes ↔ WasIn b.now.program.now (view (domain I.Has I.IsBelow I.OpGives I.OpOneGives I.ToGives I.KeepGives I.members_of) b.now.program.now b.now.facts.now) (active_of a.now) f place.now.number from.now value.now) }
{
    match from {
        Cell::Device(d) => Ok(is_device_value(b.program, *d, value)),
        Cell::At { object, path } => {
            was_object_in(alloc, b, place, a, own, *object, path.all(), value)
        }
    }
}

/// Whether a value that was given by the step behind some marks is in the sets of what was read, if that is a read.
fn was_given_in<I: IntDomain>(
    alloc: Global,
    b: &Basis<I>,
    place: &Reached<I>,
    a: &Activation,
    own: &[u32],
    front: &[Mark],
    value: &Value,
) -> Result<bool, NoMemory>
    requires basis { IsBasis (domain I.Has I.IsBelow I.OpGives I.OpOneGives I.ToGives I.KeepGives I.members_of) b.now }
    requires place { IsPlace (domain I.Has I.IsBelow I.OpGives I.OpOneGives I.ToGives I.KeepGives I.members_of) b.now place.now }
    ensures { IfOk result (λ yes. (f : FuncOf) → own.now ≡ registers_of f → IsTrue yes ↔ WasReadIn (domain I.Has I.IsBelow I.OpGives I.OpOneGives I.ToGives I.KeepGives I.members_of) b.now.program.now b.now.facts.now (active_of a.now) f place.now.number (cell_waited_of (progress_at_of b.now.program.now a.now.number a.now.func front.now (expression_of (active_of a.now)))) (Some value.now)) }
{
    let e = a.expression();
    let stage = progress_at(alloc, b.program, a.number, a.func, front, e)?;
    match cell_waited(&stage) {
        None => Ok(true),
        Some(from) => was_in(alloc, b, place, a, own, from, value),
    }
}

/// Whether what a mark gave, behind others, is in the sets of what was read.
fn is_read_in<I: IntDomain>(
    alloc: Global,
    b: &Basis<I>,
    place: &Reached<I>,
    a: &Activation,
    own: &[u32],
    front: &[Mark],
    mark: &Mark,
) -> Result<bool, NoMemory>
    requires basis { IsBasis (domain I.Has I.IsBelow I.OpGives I.OpOneGives I.ToGives I.KeepGives I.members_of) b.now }
    requires place { IsPlace (domain I.Has I.IsBelow I.OpGives I.OpOneGives I.ToGives I.KeepGives I.members_of) b.now place.now }
    ensures { IfOk result (λ yes. (f : FuncOf) → own.now ≡ registers_of f → IsTrue yes ↔ IsReadIn (domain I.Has I.IsBelow I.OpGives I.OpOneGives I.ToGives I.KeepGives I.members_of) b.now.program.now b.now.facts.now (active_of a.now) f place.now.number front.now mark.now) }
{
    match value_given(mark) {
        None => Ok(true),
        Some(value) => was_given_in(alloc, b, place, a, own, front, value),
    }
}

/// Whether each value that was read of the present full expression is in the sets of what was read.
pub fn are_reads_in<I: IntDomain>(
    alloc: Global,
    b: &Basis<I>,
    place: &Reached<I>,
    a: &Activation,
    own: &[u32],
) -> Result<bool, NoMemory>
    requires basis { IsBasis (domain I.Has I.IsBelow I.OpGives I.OpOneGives I.ToGives I.KeepGives I.members_of) b.now }
    requires place { IsPlace (domain I.Has I.IsBelow I.OpGives I.OpOneGives I.ToGives I.KeepGives I.members_of) b.now place.now }
    ensures { IfOk result (λ yes. (f : FuncOf) → own.now ≡ registers_of f → IsTrue yes ↔ AreReadsIn (domain I.Has I.IsBelow I.OpGives I.OpOneGives I.ToGives I.KeepGives I.members_of) b.now.program.now b.now.facts.now (active_of a.now) f place.now.number) }
{
    let marks = a.marks();
    for (k, mark) in marks.iter().enumerate() {
        let fits = is_read_in(alloc, b, place, a, own, &marks[..k], mark)?;
        if !fits {
            return Ok(false);
        }
    }
    Ok(true)
}
