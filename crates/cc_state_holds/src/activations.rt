//! Activations: whether all that facts say of one is so.

ghost use Rattle.std.specs.Prelude.{◌≡◌, ◌↔◌, ◌∷◌, ℕ, List as Items, IsTrue, IfOk, Some, slice_get};
ghost use Rattle.std.specs.List.{Contains};
ghost use Rattle.std.specs.Option.{option_copied};
ghost use Rattle.cc_cells.specs.Cells.{cells_of};
ghost use Rattle.cc_flow_sound.specs.CcFlow.Points.{flow_of};
ghost use Rattle.cc_program.specs.declared.func.Func.{Func as FuncOf};
ghost use Rattle.cc_proof_covers.specs.Covers.{StandsAtPoint, IsMemoryIn};
ghost use Rattle.cc_state.specs.Points.{HasFunction};
ghost use Rattle.cc_state.specs.View.{view};
ghost use Rattle.cc_state_reads.specs.CcStateFacts.Facts.{fact_at as fact_at_of, may_be_in};
ghost use Rattle.cc_state_holds.specs.Basis.{IsBasis, IsPlace};
ghost use Rattle.cc_state_holds.specs.Parts.{IsMemoryAt, IsRight, IsRightAmong, IsBodyIn, IsActivationIn};
ghost use Rattle.cc_state_reads.specs.CcStateKeys.Tracked.{registers as registers_of};
ghost use Rattle.cc_state_reads.specs.CcStateOperators.Domains.{domain};
ghost use Rattle.cc_steps.specs.State.{Active, Memory};
ghost use Rattle.cc_steps.specs.View.{active_of, actives_of};

use crate::basis::{Basis, Reached};
use crate::functions::{innermost, is_reached_from, may_run_at, running_level};
use crate::locals::are_locals_in;
use crate::memory::{are_cells_held, are_pairs_held};
use crate::operands::are_reads_in;
use crate::pending::pending;
use crate::points::counted_points;
use crate::registers::are_registers_held;
use cc_flow_sound::flow::Flow;
use cc_meaning::Activation;
use cc_program::num::{NoMemory, at};
use cc_program::{Func, Program, Value};
use cc_state_reads::lattice::IntDomain;
use cc_state_reads::state_facts::{Facts, PointFact};
use cc_state_reads::state_keys::registers;
use std::alloc::Global;

/// What an activation is held against besides facts: the values of static objects, and the flag as it counts, none of one that
/// waits for a call.
#[derive(Clone, Copy)]
pub struct Around<'a> {
    pub statics: &'a [Vec<Value>],
    pub flag: Option<bool>,
}

/// Whether the flag may be so.
fn may_be<I>(fact: &PointFact<I>, on: bool) -> bool
    ensures { result ≡ may_be_in fact.now on }
{
    if on { fact.on } else { fact.off }
}

/// Whether the flag, the tracked cells and what registers are the same as are as facts say at a point.
fn is_memory_in<'a, I: IntDomain>(
    b: &Basis<I>,
    place: &Reached<I>,
    a: &'a Activation,
    pending: Option<&'a (u32, Value)>,
    on: bool,
    statics: &[Vec<Value>],
) -> bool
    requires basis { IsBasis (domain I.Has I.IsBelow I.OpGives I.OpOneGives I.ToGives I.KeepGives I.members_of) b.now }
    requires place { IsPlace (domain I.Has I.IsBelow I.OpGives I.OpOneGives I.ToGives I.KeepGives I.members_of) b.now place.now }
    ensures { (m : Memory) → m.statics ≡ cells_of statics.now → IsTrue result ↔ IsMemoryIn b.now.program.now (view (domain I.Has I.IsBelow I.OpGives I.OpOneGives I.ToGives I.KeepGives I.members_of) b.now.program.now b.now.facts.now) m on (active_of a.now) place.now.number (option_copied pending.entry) }
{
    if !may_be(place.fact, on) {
        return false;
    }
    if !are_cells_held(b, place.fact, statics) {
        return false;
    }
    let pairs = place.fact.same.all();
    are_pairs_held(b, place.registers, pairs, a, pending, statics)
}

/// Whether the memory is as facts say at a point, where the flag counts.
fn is_memory_at<'a, I: IntDomain>(
    b: &Basis<I>,
    place: &Reached<I>,
    a: &'a Activation,
    pending: Option<&'a (u32, Value)>,
    around: &Around<'_>,
) -> bool
    requires basis { IsBasis (domain I.Has I.IsBelow I.OpGives I.OpOneGives I.ToGives I.KeepGives I.members_of) b.now }
    requires place { IsPlace (domain I.Has I.IsBelow I.OpGives I.OpOneGives I.ToGives I.KeepGives I.members_of) b.now place.now }
    ensures { (m : Memory) → m.statics ≡ cells_of around.now.statics.now → IsTrue result ↔ IsMemoryAt (domain I.Has I.IsBelow I.OpGives I.OpOneGives I.ToGives I.KeepGives I.members_of) b.now.program.now b.now.facts.now around.now.flag m (active_of a.now) place.now.number (option_copied pending.entry) }
{
    match around.flag {
        None => true,
        Some(on) => is_memory_in(b, place, a, pending, on, around.statics),
    }
}

/// Whether all that facts say of a point is so of an activation that counts as standing there. The registers are those of its
/// function.
fn is_right_at<'a, I: IntDomain>(
    alloc: Global,
    b: &Basis<I>,
    place: &Reached<I>,
    a: &'a Activation,
    own: &[u32],
    pending: Option<&'a (u32, Value)>,
    around: &Around<'_>,
) -> Result<bool, NoMemory>
    requires basis { IsBasis (domain I.Has I.IsBelow I.OpGives I.OpOneGives I.ToGives I.KeepGives I.members_of) b.now }
    requires place { IsPlace (domain I.Has I.IsBelow I.OpGives I.OpOneGives I.ToGives I.KeepGives I.members_of) b.now place.now }
    requires stands { StandsAtPoint b.now.program.now (active_of a.now) (option_copied pending) place.now.number }
    ensures { IfOk result (λ yes. (f : FuncOf) (m : Memory) → own.now ≡ registers_of f → m.statics ≡ cells_of around.now.statics.now → IsTrue yes ↔ IsRight (domain I.Has I.IsBelow I.OpGives I.OpOneGives I.ToGives I.KeepGives I.members_of) b.now.program.now b.now.facts.now around.now.flag m (active_of a.now) f (option_copied pending.entry) place.now.number) }
{
    if !are_registers_held(place.fact, place.registers, own, a, pending) {
        return Ok(false);
    }
    if !is_memory_at(b, place, a, pending, around) {
        return Ok(false);
    }
    match pending {
        None => are_reads_in(alloc, b, place, a, own),
        Some(_) => Ok(true),
    }
}

/// What is known at a point, where that is reached.
fn fact_at<I>(facts: &Facts<I>, n: usize) -> Option<&PointFact<I>>
    ensures { option_copied result ≡ fact_at_of facts.now n }
{
    at(facts.at.all(), n)?.as_ref()
}

/// The function of a point.
fn func_at<'p>(p: &'p Program, flow: &Flow, n: usize) -> &'p Func
    requires flow { flow.now ≡ flow_of p.now }
    requires there { (f : FuncOf) × HasFunction p.now n f }
    ensures { HasFunction p.now n result.now }
{
    match at(flow.points.all(), n) {
        None => unreachable!(),
        Some(q) => match at(p.funcs.all(), q.func as usize) {
            None => unreachable!(),
            Some(func) => func,
        },
    }
}

/// Whether all that facts say of a point that is reached is so.
fn is_right_by<'a, I: IntDomain>(
    alloc: Global,
    b: &Basis<I>,
    n: usize,
    fact: &PointFact<I>,
    a: &'a Activation,
    own: &[u32],
    pending: Option<&'a (u32, Value)>,
    around: &Around<'_>,
) -> Result<bool, NoMemory>
    requires basis { IsBasis (domain I.Has I.IsBelow I.OpGives I.OpOneGives I.ToGives I.KeepGives I.members_of) b.now }
    requires known { fact_at_of b.now.facts.now n ≡ Some fact.now }
    requires stands { StandsAtPoint b.now.program.now (active_of a.now) (option_copied pending) n }
    ensures { IfOk result (λ yes. (f : FuncOf) (m : Memory) → own.now ≡ registers_of f → m.statics ≡ cells_of around.now.statics.now → IsTrue yes ↔ IsRight (domain I.Has I.IsBelow I.OpGives I.OpOneGives I.ToGives I.KeepGives I.members_of) b.now.program.now b.now.facts.now around.now.flag m (active_of a.now) f (option_copied pending.entry) n) }
{
    let func = func_at(b.program, b.flow, n);
    let registers = registers(alloc, func)?;
    let place = Reached {
        number: n,
        fact,
        registers: &registers,
    };
    is_right_at(alloc, b, &place, a, own, pending, around)
}

/// Whether all that facts say of a point is so, if the point is reached.
fn is_right_in<'a, I: IntDomain>(
    alloc: Global,
    b: &Basis<I>,
    n: usize,
    a: &'a Activation,
    own: &[u32],
    pending: Option<&'a (u32, Value)>,
    around: &Around<'_>,
) -> Result<bool, NoMemory>
    requires basis { IsBasis (domain I.Has I.IsBelow I.OpGives I.OpOneGives I.ToGives I.KeepGives I.members_of) b.now }
    requires stands { StandsAtPoint b.now.program.now (active_of a.now) (option_copied pending) n }
    ensures { IfOk result (λ yes. (f : FuncOf) (m : Memory) → own.now ≡ registers_of f → m.statics ≡ cells_of around.now.statics.now → IsTrue yes ↔ IsRight (domain I.Has I.IsBelow I.OpGives I.OpOneGives I.ToGives I.KeepGives I.members_of) b.now.program.now b.now.facts.now around.now.flag m (active_of a.now) f (option_copied pending.entry) n) }
{
    match fact_at(b.facts, n) {
        None => Ok(false),
        Some(fact) => is_right_by(alloc, b, n, fact, a, own, pending, around),
    }
}

/// Whether all that facts say of one of some points is so.
fn is_right_among<'a, I: IntDomain>(
    alloc: Global,
    b: &Basis<I>,
    points: &[usize],
    a: &'a Activation,
    own: &[u32],
    pending: Option<&'a (u32, Value)>,
    around: &Around<'_>,
) -> Result<bool, NoMemory>
    requires basis { IsBasis (domain I.Has I.IsBelow I.OpGives I.OpOneGives I.ToGives I.KeepGives I.members_of) b.now }
    requires stands { (n : ℕ) → Contains points.now n → StandsAtPoint b.now.program.now (active_of a.now) (option_copied pending) n }
    ensures { IfOk result (λ yes. (f : FuncOf) (m : Memory) → own.now ≡ registers_of f → m.statics ≡ cells_of around.now.statics.now → IsTrue yes ↔ IsRightAmong (domain I.Has I.IsBelow I.OpGives I.OpOneGives I.ToGives I.KeepGives I.members_of) b.now.program.now b.now.facts.now points.now around.now.flag m (active_of a.now) f (option_copied pending.entry)) }
{
    for n in points {
        let right = is_right_in(alloc, b, *n, a, own, pending, around)?;
        if right {
            return Ok(true);
        }
    }
    Ok(false)
}

/// Whether the locals of an activation of this function, and all that facts say of a point at which it counts as standing, are
/// so.
fn is_body_in<I: IntDomain>(
    alloc: Global,
    b: &Basis<I>,
    f: &Func,
    a: &Activation,
    around: &Around<'_>,
) -> Result<bool, NoMemory>
    requires basis { IsBasis (domain I.Has I.IsBelow I.OpGives I.OpOneGives I.ToGives I.KeepGives I.members_of) b.now }
    requires there { slice_get b.now.program.now.funcs a.now.func ≡ Some f.now }
    ensures { IfOk result (λ yes. (m : Memory) → m.statics ≡ cells_of around.now.statics.now → IsTrue yes ↔ IsBodyIn (domain I.Has I.IsBelow I.OpGives I.OpOneGives I.ToGives I.KeepGives I.members_of) b.now.program.now b.now.facts.now around.now.flag m (active_of a.now) f.now) }
{
    let own = registers(alloc, f)?;
    let fit = are_locals_in(alloc, b, f, &own, a)?;
    if !fit {
        return Ok(false);
    }
    let given = pending(alloc, b.program, a)?;
    let points = counted_points(alloc, b, a, given.as_ref())?;
    is_right_among(alloc, b, &points, a, &own, given.as_ref(), around)
}

/// Whether the last activation of a stack lies in the facts.
pub fn is_activation_in<I: IntDomain>(
    alloc: Global,
    b: &Basis<I>,
    stack: &[Activation],
    a: &Activation,
    around: &Around<'_>,
) -> Result<bool, NoMemory>
    requires { IsBasis (domain I.Has I.IsBelow I.OpGives I.OpOneGives I.ToGives I.KeepGives I.members_of) b.now }
    ensures { IfOk result (λ yes. (m : Memory) (below : Items Active) → actives_of stack.now ≡ active_of a.now ∷ below → m.statics ≡ cells_of around.now.statics.now → IsTrue yes ↔ IsActivationIn (domain I.Has I.IsBelow I.OpGives I.OpOneGives I.ToGives I.KeepGives I.members_of) b.now.program.now b.now.facts.now around.now.flag m (active_of a.now) below) }
{
    let p = b.program;
    if !is_reached_from(b.facts, innermost(p, stack), a.func) {
        return Ok(false);
    }
    if !may_run_at(b.facts, a.func, running_level(p, stack)) {
        return Ok(false);
    }
    match at(p.funcs.all(), a.func as usize) {
        None => Ok(false),
        Some(f) => is_body_in(alloc, b, f, a, around),
    }
}
