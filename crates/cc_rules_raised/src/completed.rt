//! What flows to a point, with an empty set for each register of which it tells nothing.

ghost use Rattle.std.specs.Prelude.{true, false, ◌≡◌, ◌≤◌, ◌++◌, ℕ, List as ListOf, length, map, slice_get, option_and_then, IfOk, OnOk};
ghost use Rattle.cc_rules_asked.specs.CcPlaces.declared.abs.Abs.{Abs as AbsOf};
ghost use Rattle.std.specs.List.{AllZip};
ghost use Rattle.std.specs.Option.{option_copied};
ghost use Rattle.cc_rules_asked.specs.CcFlow.Points.{flow_of};
ghost use Rattle.cc_rules_asked.specs.CcFlow.declared.types.Point.{Point as PointOf};
ghost use Rattle.cc_program.specs.declared.func.Func.{Func as FuncOf};
ghost use Rattle.cc_rules_asked.specs.CcRulesFlows.Nexts.{IsPoint};
ghost use Rattle.cc_rules_raised.specs.Completed.{AreKindsAt, IsCompleted};
ghost use Rattle.cc_rules_grow.specs.CcState.Shape.{HaveShape};
ghost use Rattle.cc_rules_asked.specs.CcStateFacts.Facts.{fact_at};
ghost use Rattle.cc_rules_asked.specs.CcStateKeys.Tracked.{registers as registers_of};
ghost use Rattle.cc_rules_asked.specs.CcStateOperators.Domains.{domain};
ghost use Rattle.cc_state_shape.specs.Empty.{IsNone};
ghost use Rattle.cc_rules_raised.specs.OfAddresses.{local_addresses, is_set_of_addresses};
ghost use Rattle.cc_rules_asked.specs.CcSyntax.Normal.{IsNormal};

use cc_program::num::{List, NoMemory, at};
use cc_program::{Func, Program};
use cc_rules_asked::flow::Flow;
use cc_rules_asked::lattice::IntDomain;
use cc_rules_asked::places::Abs;
use cc_rules_asked::state_facts::{Facts, PointFact, Shared, copied_point};
use cc_rules_asked::state_keys::registers;
use cc_state_shape::{holds_addresses, none_of};
use std::alloc::Global;
use std::mem;

/// What is known at a point.
pub(crate) fn fact<I>(facts: &Facts<I>, point: u32) -> Option<&PointFact<I>>
    ensures { option_copied result ≡ fact_at facts.now point }
{
    at(facts.at.all(), point as usize)?.as_ref()
}

/// Whether a set is one of addresses.
fn is_of_addresses<I>(set: &Abs<I>) -> bool
    ensures { result ≡ is_set_of_addresses set.now }
{
    matches!(set, Abs::Addrs(_))
}

/// Of each set, whether it is one.
fn kinds_of_sets<I>(alloc: Global, sets: &[Shared<Abs<I>>]) -> Result<Vec<bool>, NoMemory>
    ensures { IfOk result (λ kinds. kinds.items ≡ map is_set_of_addresses sets.now) }
{
    let mut kinds = Vec::new(alloc);
    for set in sets {
        kinds.push(is_of_addresses(set.get()))?;
    }
    Ok(kinds)
}

/// Whether a local of a function holds addresses.
fn is_address(f: &Func, local: u32) -> bool
    ensures { result ≡ local_addresses f.now local }
{
    match at(f.locals.all(), local as usize) {
        None => false,
        Some(local) => holds_addresses(&local.1),
    }
}

/// Of each of some locals of a function, whether it does.
fn kinds_of_locals(alloc: Global, f: &Func, locals: &[u32]) -> Result<Vec<bool>, NoMemory>
    ensures { IfOk result (λ kinds. kinds.items ≡ map (local_addresses f.now) locals.now) }
{
    let mut kinds = Vec::new(alloc);
    for local in locals {
        kinds.push(is_address(f, *local))?;
    }
    Ok(kinds)
}

/// The function of a point.
fn func_of<'p>(p: &'p Program, flow: &Flow, point: u32) -> Option<&'p Func>
    ensures { option_copied result ≡ option_and_then (λ (q : PointOf). slice_get p.now.funcs q.func) (slice_get flow.now.points point) }
{
    let q = at(flow.points.all(), point as usize)?;
    at(p.funcs.all(), q.func as usize)
}

/// Of the registers of a point's function, whether each is declared to hold addresses.
fn declared_kinds(
    alloc: Global,
    p: &Program,
    flow: &Flow,
    point: u32,
) -> Result<Vec<bool>, NoMemory>
    requires normal { IsNormal p.now }
    requires flow { flow.now ≡ flow_of p.now }
    requires there { (id : ℕ) × (f : FuncOf) × (q : PointOf) × IsPoint p.now point id f q }
    ensures { IfOk result (λ kinds. (id : ℕ) (f : FuncOf) (q : PointOf) → IsPoint p.now point id f q → kinds.items ≡ map (local_addresses f) (registers_of f)) }
{
    match func_of(p, flow, point) {
        None => unreachable!(),
        Some(func) => {
            let numbers = registers(alloc, func)?;
            kinds_of_locals(alloc, func, &numbers)
        }
    }
}

/// Of the registers of a point's function, whether each holds addresses: as its sets do where the point is reached.
fn kinds_at<I: IntDomain>(
    alloc: Global,
    p: &Program,
    flow: &Flow,
    facts: &Facts<I>,
    point: u32,
) -> Result<Vec<bool>, NoMemory>
    requires normal { IsNormal p.now }
    requires flow { flow.now ≡ flow_of p.now }
    requires there { (id : ℕ) × (f : FuncOf) × (q : PointOf) × IsPoint p.now point id f q }
    requires shape { HaveShape (domain I.Has I.IsBelow I.OpGives I.OpOneGives I.ToGives I.KeepGives I.members_of) p.now facts.now }
    ensures { IfOk result (λ kinds. AreKindsAt (domain I.Has I.IsBelow I.OpGives I.OpOneGives I.ToGives I.KeepGives I.members_of) p.now point kinds.items) }
{
    match fact(facts, point) {
        Some(known) => kinds_of_sets(alloc, known.locals.all()),
        None => declared_kinds(alloc, p, flow, point),
    }
}

/// The set of integers, or the one of addresses.
fn of_kind<I: IntDomain>(
    is_address: bool,
    integers: &Shared<Abs<I>>,
    addresses: &Shared<Abs<I>>,
) -> Result<Shared<Abs<I>>, NoMemory>
    requires integers { IsNone I.Has false integers.now }
    requires addresses { IsNone I.Has true addresses.now }
    ensures { IfOk result (λ set. IsNone I.Has is_address set) }
{
    if is_address {
        addresses.share()
    } else {
        integers.share()
    }
}

/// Puts the empty set of each kind behind some sets. Those of one kind are shared.
fn put_nones<I: IntDomain>(
    alloc: Global,
    sets: &mut Vec<Shared<Abs<I>>>,
    kinds: &[bool],
) -> Result<(), NoMemory>
    ensures { OnOk result ((nones : ListOf (AbsOf I)) × (sets.new.items ≡ sets.old.items ++ nones) × AllZip (IsNone I.Has) kinds.now nones) }
{
    let no_integer = none_of(alloc, false);
    let no_address = none_of(alloc, true);
    let integers = Shared::new(alloc, no_integer)?;
    let addresses = Shared::new(alloc, no_address)?;
    for kind in kinds {
        let none = of_kind(*kind, &integers, &addresses)?;
        sets.push(none)?;
    }
    Ok(())
}

/// What flows to a point, with an empty set for each register of which it tells nothing.
pub(crate) fn completed<I: IntDomain>(
    alloc: Global,
    p: &Program,
    flow: &Flow,
    facts: &Facts<I>,
    point: u32,
    told: &PointFact<I>,
) -> Result<PointFact<I>, NoMemory>
    requires normal { IsNormal p.now }
    requires flow { flow.now ≡ flow_of p.now }
    requires there { (id : ℕ) × (f : FuncOf) × (q : PointOf) × IsPoint p.now point id f q × (length told.now.locals ≤ length (registers_of f)) }
    requires shape { HaveShape (domain I.Has I.IsBelow I.OpGives I.OpOneGives I.ToGives I.KeepGives I.members_of) p.now facts.now }
    ensures { IfOk result (λ made. (id : ℕ) (f : FuncOf) (q : PointOf) → IsPoint p.now point id f q → IsCompleted (domain I.Has I.IsBelow I.OpGives I.OpOneGives I.ToGives I.KeepGives I.members_of) p.now f told.now made) }
{
    let kinds = kinds_at(alloc, p, flow, facts, point)?;
    let mut made = copied_point(alloc, told)?;
    let mut sets = mem::replace(&mut made.locals, List::of(Vec::new(alloc))).into_vec();
    let count = sets.len();
    put_nones(alloc, &mut sets, &kinds[count..])?;
    made.locals = List::of(sets);
    Ok(made)
}
