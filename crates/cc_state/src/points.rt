//! What expressions and accesses to places may give at a point of a program, and which keys places name there.

ghost use Rattle.std.specs.Prelude.{◌≡◌, ◌<◌, ◌^◌, ℕ, length, is_some, true, Some, IfOk};
ghost use Rattle.cc_flow_sound.specs.CcFlow.Points.{flow_of};
ghost use Rattle.cc_program.specs.declared.func.Func.{Func as FuncOf};
ghost use Rattle.cc_state.specs.Points.{HasFunction, HasFewLocals, HaveSetsAt, HaveKindsAt, IsPureAt, IsPurePlaceAt, IsReadPlaceAt, IsValueAt, AreNamedAt, IsReadAt, IsContextAt};
ghost use Rattle.cc_state.specs.Shape.{HaveShape};
ghost use Rattle.cc_state_reads.specs.CcStateFacts.declared.facts.PointFact.{PointFact as PointFactOf};
ghost use Rattle.cc_state_reads.specs.CcStateFacts.Facts.{fact_at, cell_at};
ghost use Rattle.cc_state_reads.specs.CcStateKeys.Keys.{keys_of as keys_in};
ghost use Rattle.cc_state_reads.specs.CcStateKeys.Tracked.{registers as registers_in, tracked as tracked_in};
ghost use Rattle.cc_state_reads.specs.CcStateOperators.Domains.{domain};
ghost use Rattle.cc_state_reads.specs.CcSyntax.Normal.{IsNormal};
ghost use Rattle.cc_state_reads.specs.CcSyntax.Sizes.{AreSized};

use cc_flow_sound::flow::Flow;
use cc_program::num::{List, NoMemory, at};
use cc_program::{Expr, Func, Place, Program};
use cc_state_reads::keys_named;
use cc_state_reads::lattice::IntDomain;
use cc_state_reads::places::Abs;
use cc_state_reads::state_facts::{Facts, Key, Shared};
use cc_state_reads::state_keys::{registers, tracked};
use cc_state_reads::state_values::Context;
use std::alloc::Global;

/// The function of a point.
fn func_at<'p>(p: &'p Program, flow: &Flow, point: u32) -> &'p Func
    requires flow { flow.now ≡ flow_of p.now }
    requires there { (f : FuncOf) × HasFunction p.now point f }
    ensures { HasFunction p.now point result.now }
{
    match at(flow.points.all(), point as usize) {
        None => unreachable!(),
        Some(q) => match at(p.funcs.all(), q.func as usize) {
            None => unreachable!(),
            Some(func) => func,
        },
    }
}

/// The sets of the registers of a point's function.
fn sets_at<I>(facts: &Facts<I>, point: u32) -> &[Shared<Abs<I>>]
    requires { is_some (fact_at facts.now point) ≡ true }
    ensures { (fact : PointFactOf I) × (fact_at facts.now point ≡ Some fact) × (result.now ≡ fact.locals) }
{
    match at(facts.at.all(), point as usize) {
        None => unreachable!(),
        Some(known) => match known {
            None => unreachable!(),
            Some(fact) => fact.locals.all(),
        },
    }
}

/// Where expressions of a point's function are worked.
fn context_at<'p, I>(
    p: &'p Program,
    flow: &Flow,
    facts: &'p Facts<I>,
    point: u32,
    func: &'p Func,
    registers: &'p [u32],
) -> Context<'p, I>
    requires flow { flow.now ≡ flow_of p.now }
    requires there { HasFunction p.now point func.now }
    requires registers { registers.now ≡ registers_in func.now }
    requires reached { is_some (fact_at facts.now point) ≡ true }
    ensures { IsContextAt p.now facts.now point func.now result }
{
    match at(flow.points.all(), point as usize) {
        None => unreachable!(),
        Some(q) => Context {
            program: p,
            id: q.func,
            func,
            registers,
            sets: sets_at(facts, point),
        },
    }
}

/// A context is done with.
fn end<I>(c: Context<'_, I>) {
    let Context {
        program: _,
        id: _,
        func: _,
        registers: _,
        sets: _,
    } = c;
}

/// What a pure expression may give, where the registers of its function have sets of values of their types.
fn value_by<I: IntDomain>(
    alloc: Global,
    p: &Program,
    flow: &Flow,
    facts: &Facts<I>,
    point: u32,
    e: &Expr,
) -> Result<Abs<I>, NoMemory>
    requires sized { AreSized p.now.structures p.now.target }
    requires few { HasFewLocals p.now point }
    requires flow { flow.now ≡ flow_of p.now }
    requires sets { HaveSetsAt (domain I.Has I.IsBelow I.OpGives I.OpOneGives I.ToGives I.KeepGives I.members_of) p.now facts.now point }
    requires reached { is_some (fact_at facts.now point) ≡ true }
    requires pure { IsPureAt p.now point e.now }
    ensures { IfOk result (λ y. IsValueAt (domain I.Has I.IsBelow I.OpGives I.OpOneGives I.ToGives I.KeepGives I.members_of) p.now facts.now point e.now y) }
{
    let func = func_at(p, flow, point);
    let registers = registers(alloc, func)?;
    let c = context_at(p, flow, facts, point, func, &registers);
    let value = cc_state_reads::state_values::value_of(alloc, &c, e);
    end(c);
    value
}

/// The keys that a place names.
fn keys_by<I: IntDomain>(
    alloc: Global,
    p: &Program,
    flow: &Flow,
    facts: &Facts<I>,
    point: u32,
    place: &Place,
) -> Result<List<Key>, NoMemory>
    requires sized { AreSized p.now.structures p.now.target }
    requires few { HasFewLocals p.now point }
    requires flow { flow.now ≡ flow_of p.now }
    requires sets { HaveSetsAt (domain I.Has I.IsBelow I.OpGives I.OpOneGives I.ToGives I.KeepGives I.members_of) p.now facts.now point }
    requires keys { facts.now.keys ≡ keys_in p.now }
    requires reached { is_some (fact_at facts.now point) ≡ true }
    requires pure { IsPurePlaceAt p.now point place.now }
    ensures { IfOk result (λ keys. AreNamedAt (domain I.Has I.IsBelow I.OpGives I.OpOneGives I.ToGives I.KeepGives I.members_of) p.now facts.now point place.now keys) }
{
    let func = func_at(p, flow, point);
    let registers = registers(alloc, func)?;
    let c = context_at(p, flow, facts, point, func, &registers);
    let keys = keys_named(alloc, &c, facts.keys.all(), place);
    end(c);
    keys
}

/// What an access to a place may give, where these are the tracked cells.
fn read_by<I: IntDomain>(
    alloc: Global,
    p: &Program,
    flow: &Flow,
    facts: &Facts<I>,
    point: u32,
    tracked: &[u32],
    place: &Place,
) -> Result<Abs<I>, NoMemory>
    requires sized { AreSized p.now.structures p.now.target }
    requires few { HasFewLocals p.now point }
    requires flow { flow.now ≡ flow_of p.now }
    requires sets { HaveSetsAt (domain I.Has I.IsBelow I.OpGives I.OpOneGives I.ToGives I.KeepGives I.members_of) p.now facts.now point }
    requires kinds { HaveKindsAt (domain I.Has I.IsBelow I.OpGives I.OpOneGives I.ToGives I.KeepGives I.members_of) p.now facts.now point place.now }
    requires keys { facts.now.keys ≡ keys_in p.now }
    requires tracked { tracked.now ≡ tracked_in p.now }
    requires cells { (cell : ℕ) → cell < length (tracked_in p.now) → is_some (cell_at facts.now point cell) ≡ true }
    requires reached { is_some (fact_at facts.now point) ≡ true }
    requires read { IsReadPlaceAt p.now point place.now }
    ensures { IfOk result (λ y. IsReadAt (domain I.Has I.IsBelow I.OpGives I.OpOneGives I.ToGives I.KeepGives I.members_of) p.now facts.now point place.now y) }
{
    let func = func_at(p, flow, point);
    let registers = registers(alloc, func)?;
    let c = context_at(p, flow, facts, point, func, &registers);
    let value = cc_state_reads::read_of(alloc, &c, facts, point, tracked, place);
    end(c);
    value
}

/// What a pure expression of its function may give at a point that is reached. The only error is want of memory.
pub fn value_of<I: IntDomain>(
    alloc: Global,
    p: &Program,
    flow: &Flow,
    facts: &Facts<I>,
    point: u32,
    e: &Expr,
) -> Result<Abs<I>, NoMemory>
    requires normal { IsNormal p.now }
    requires flow { flow.now ≡ flow_of p.now }
    requires shape { HaveShape (domain I.Has I.IsBelow I.OpGives I.OpOneGives I.ToGives I.KeepGives I.members_of) p.now facts.now }
    requires reached { is_some (fact_at facts.now point) ≡ true }
    requires pure { IsPureAt p.now point e.now }
    ensures { IfOk result (λ y. IsValueAt (domain I.Has I.IsBelow I.OpGives I.OpOneGives I.ToGives I.KeepGives I.members_of) p.now facts.now point e.now y) }
{
    value_by(alloc, p, flow, facts, point, e)
}

/// The keys, in the order of the program's, that a place of its function names at a point that is reached. The only error is
/// want of memory.
pub fn keys_of<I: IntDomain>(
    alloc: Global,
    p: &Program,
    flow: &Flow,
    facts: &Facts<I>,
    point: u32,
    place: &Place,
) -> Result<List<Key>, NoMemory>
    requires normal { IsNormal p.now }
    requires flow { flow.now ≡ flow_of p.now }
    requires shape { HaveShape (domain I.Has I.IsBelow I.OpGives I.OpOneGives I.ToGives I.KeepGives I.members_of) p.now facts.now }
    requires reached { is_some (fact_at facts.now point) ≡ true }
    requires pure { IsPurePlaceAt p.now point place.now }
    ensures { IfOk result (λ keys. AreNamedAt (domain I.Has I.IsBelow I.OpGives I.OpOneGives I.ToGives I.KeepGives I.members_of) p.now facts.now point place.now keys) }
{
    keys_by(alloc, p, flow, facts, point, place)
}

/// What an access to a place of its function may give at a point that is reached. The only error is want of memory.
pub fn read_of<I: IntDomain>(
    alloc: Global,
    p: &Program,
    flow: &Flow,
    facts: &Facts<I>,
    point: u32,
    place: &Place,
) -> Result<Abs<I>, NoMemory>
    requires normal { IsNormal p.now }
    requires flow { flow.now ≡ flow_of p.now }
    requires shape { HaveShape (domain I.Has I.IsBelow I.OpGives I.OpOneGives I.ToGives I.KeepGives I.members_of) p.now facts.now }
    requires reached { is_some (fact_at facts.now point) ≡ true }
    requires read { IsReadPlaceAt p.now point place.now }
    ensures { IfOk result (λ y. IsReadAt (domain I.Has I.IsBelow I.OpGives I.OpOneGives I.ToGives I.KeepGives I.members_of) p.now facts.now point place.now y) }
{
    let tracked = tracked(alloc, p)?;
    read_by(alloc, p, flow, facts, point, &tracked, place)
}
