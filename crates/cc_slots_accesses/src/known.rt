//! What is known of an access where it stands.

ghost use Rattle.std.specs.Prelude.{◌≡◌, ◌↔◌, true, IsTrue, IfOk, is_some};
ghost use Rattle.std.specs.Option.{option_copied};
ghost use Rattle.cc_slots_accesses.specs.Known.{IsKnownAccess, is_volatile_in, is_volatile_place as is_volatile_place_of, may_be_on as may_be_on_of};
ghost use Rattle.cc_slots_accesses.specs.Outside.{MayBeOutsideIn};
ghost use Rattle.cc_rules_flows.specs.CcStateFacts.declared.facts.Key.{Key as KeyOf};
ghost use Rattle.cc_rules_flows.specs.CcStateFacts.Facts.{levels_of as levels_of_number, mark_of as mark_of_number};
ghost use Rattle.cc_rules_flows.specs.CcStateOperators.Domains.{domain};
ghost use Rattle.cc_rules_flows.specs.CcStateValues.Contexts.{HaveSetsIn, IsPurePlaceIn};
ghost use Rattle.cc_rules_flows.specs.CcSyntax.Programs.{place_type as place_type_of};
ghost use Rattle.cc_rules_flows.specs.CcSyntax.Sizes.{AreSized};
ghost use Rattle.cc_rules_flows.specs.CcTyped.View.{place_view};

use crate::access::Access;
use crate::places::{may_be_outside, place_type};
use cc_program::Place;
use cc_program::num::{NoMemory, at};
use cc_rules_flows::lattice::IntDomain;
use cc_rules_flows::state_facts::{Facts, PointFact};
use cc_rules_flows::state_values::Context;
use cc_rules_flows::typed::PlaceType;
use std::alloc::Global;

fn is_volatile_place(a: PlaceType) -> bool
    ensures { result ≡ is_volatile_place_of (place_view a.entry) }
{
    match a {
        PlaceType::Device(_, _) => true,
        PlaceType::Object(_, volatile, _) => volatile,
        PlaceType::Function(_) => false,
    }
}

#[tactic(auto, using(crate::proofs::Owns::of_types))]
fn is_volatile<I>(c: &Context<'_, I>, a: &Place) -> bool
    requires { AreSized c.now.program.now.structures c.now.program.now.target }
    ensures { result ≡ is_volatile_in (place_type_of c.now.program.now c.now.func.now.locals a.now) }
{
    match place_type(c, a) {
        None => false,
        Some(t) => is_volatile_place(t),
    }
}

/// The mark of a function.
fn mark_of(marks: &[bool], number: u32) -> bool
    ensures { result ≡ mark_of_number marks.now number }
{
    match at(marks, number as usize) {
        None => false,
        Some(mark) => *mark,
    }
}

/// The set of levels of a function.
fn levels_of(sets: &[u8], number: u32) -> u8
    ensures { result ≡ levels_of_number sets.now number }
{
    match at(sets, number as usize) {
        None => 0,
        Some(levels) => *levels,
    }
}

/// Whether a run may come to a point with this known.
pub(crate) fn is_reached<I>(fact: Option<&PointFact<I>>) -> bool
    ensures { result ≡ is_some (option_copied fact.entry) }
{
    match fact {
        None => false,
        Some(_) => true,
    }
}

fn may_be_on<I>(fact: Option<&PointFact<I>>) -> bool
    ensures { result ≡ may_be_on_of (option_copied fact.entry) }
{
    match fact {
        None => false,
        Some(fact) => fact.on,
    }
}

/// Whether a place is an element that may lie outside its array, where a run may come there.
fn may_be_outside_where<I: IntDomain>(
    alloc: Global,
    c: &Context<'_, I>,
    is_reached: bool,
    a: &Place,
) -> Result<bool, NoMemory>
    requires sized { AreSized c.now.program.now.structures c.now.program.now.target }
    requires sets { is_reached ≡ true → HaveSetsIn (domain I.Has I.IsBelow I.OpGives I.OpOneGives I.ToGives I.KeepGives I.members_of) c.now }
    requires pure { IsPurePlaceIn (domain I.Has I.IsBelow I.OpGives I.OpOneGives I.ToGives I.KeepGives I.members_of) c.now a.now }
    ensures { IfOk result (λ may. IsTrue may ↔ ((is_reached ≡ true) × ((k : KeyOf) × MayBeOutsideIn (domain I.Has I.IsBelow I.OpGives I.OpOneGives I.ToGives I.KeepGives I.members_of) c.now a.now k))) }
{
    if is_reached {
        may_be_outside(alloc, c, a)
    } else {
        Ok(false)
    }
}

/// What is known of an access to a place, from a function and with what is known at its point.
pub(crate) fn access_to<I: IntDomain>(
    alloc: Global,
    c: &Context<'_, I>,
    facts: &Facts<I>,
    fact: Option<&PointFact<I>>,
    point: u32,
    writes: bool,
    a: &Place,
) -> Result<Access, NoMemory>
    requires sized { AreSized c.now.program.now.structures c.now.program.now.target }
    requires sets { is_some (option_copied fact) ≡ true → HaveSetsIn (domain I.Has I.IsBelow I.OpGives I.OpOneGives I.ToGives I.KeepGives I.members_of) c.now }
    requires pure { IsPurePlaceIn (domain I.Has I.IsBelow I.OpGives I.OpOneGives I.ToGives I.KeepGives I.members_of) c.now a.now }
    ensures { IfOk result (IsKnownAccess (domain I.Has I.IsBelow I.OpGives I.OpOneGives I.ToGives I.KeepGives I.members_of) c.now facts.now (option_copied fact.entry) point writes a.now) }
{
    let is_reached = is_reached(fact);
    Ok(Access {
        point,
        writes,
        is_volatile: is_volatile(c, a),
        may_be_outside: may_be_outside_where(alloc, c, is_reached, a)?,
        is_reached,
        may_be_on: may_be_on(fact),
        by_handler: mark_of(facts.by_handler.all(), c.id),
        levels: levels_of(facts.levels.all(), c.id),
        from: levels_of(facts.from.all(), c.id),
    })
}
