//! Facts are raised by a part of a slot: of keys, of functions, and of points.

ghost use Rattle.std.specs.Prelude.{◌≡◌, ◌↔◌, ◌<◌, ℕ, true, false, is_some, length, slice_get, IfOk, IfSome, OnErr, IsTrue, Some};
ghost use Rattle.cc_rules_asked.specs.CcPlaces.Abstract.{AreOfOneKind};
ghost use Rattle.cc_rules_asked.specs.CcRulesNeeds.Needs.{apart_in, AreValuesBelow, Has};
ghost use Rattle.cc_rules_asked.specs.CcRulesNeeds.Points.{ArePointsAlike, HasFlow, IsRaisedAt};
ghost use Rattle.cc_rules_asked.specs.CcRulesNeeds.Raised.{MayGet, IsPut};
ghost use Rattle.cc_rules_raised.specs.Completed.{fact_with_cell, fact_apart};
ghost use Rattle.cc_rules_raised.specs.Slots.{MayGetCell, MayPart, MayRise, IsRisenBy, IsRisen};
ghost use Rattle.cc_rules_asked.specs.CcStateFacts.declared.facts.PointFact.{PointFact as PointFactOf};
ghost use Rattle.cc_rules_asked.specs.CcStateFacts.Facts.{fact_at, cell_at};
ghost use Rattle.cc_state_limits.specs.Held.{IsHeldSet, HaveLevels, AreHeld};

use crate::changed::{with_cell, without_pair};
use crate::completed::fact;
use cc_program::num::{NoMemory, at};
use cc_rules_asked::copied_set;
use cc_rules_asked::lattice::{IntDomain, Lattice};
use cc_rules_asked::places::Abs;
use cc_rules_asked::rules_needs::{Part, Slot, raise_part, raise_point};
use cc_rules_asked::state_facts::{Facts, PointFact, is_pair};
use cc_state_limits::{held_levels, held_point, held_set};
use std::alloc::Global;

/// A copy of a part.
fn copied_part<I: IntDomain>(alloc: Global, part: &Part<I>) -> Result<Part<I>, NoMemory>
    ensures { IfOk result (λ copy. copy ≡ part.now) }
{
    match part {
        Part::Mark(mark) => Ok(Part::Mark(*mark)),
        Part::LevelSet(levels) => Ok(Part::LevelSet(*levels)),
        Part::Flags(off, on) => Ok(Part::Flags(*off, *on)),
        Part::Values(None) => Ok(Part::Values(None)),
        Part::Values(Some(set)) => Ok(Part::Values(Some(copied_set(alloc, set)?))),
    }
}

/// Raises a point by what flows there, and reads how long the sets are that it has then.
pub(crate) fn raise_held_point<I: IntDomain>(
    alloc: Global,
    facts: &mut Facts<I>,
    point: u32,
    flow: &PointFact<I>,
) -> Result<bool, NoMemory>
    requires there { point < length facts.old.at }
    requires alike { IfSome (fact_at facts.old point) (λ fact. ArePointsAlike flow.now fact) }
    ensures rose { IfOk result (λ rose. rose ≡ true → (HasFlow I.IsBelow flow.now (fact_at facts.old point) → ⊥) × IsRaisedAt I.IsBelow facts.old point flow.now facts.new) }
    ensures had { IfOk result (λ rose. rose ≡ false → HasFlow I.IsBelow flow.now (fact_at facts.old point) × (facts.new ≡ facts.old)) }
    ensures same { OnErr result (facts.new ≡ facts.old) }
    ensures held { AreHeld facts.old → AreHeld facts.new }
{
    let rose = raise_point(alloc, facts, point, flow)?;
    held_point(facts, point);
    Ok(rose)
}

/// Reads how long a set is.
fn held_at<I>(sets: &[Abs<I>], n: u32)
    ensures { IfSome (slice_get sets.now n) IsHeldSet }
{
    match at(sets, n as usize) {
        None => {}
        Some(set) => held_set(set),
    }
}

/// Reads how long the set of a key or a function is, and the levels of all.
fn held_slot<I>(facts: &Facts<I>, slot: Slot)
    ensures whole { (k : ℕ) → slot ≡ Slot.Whole k → IfSome (slice_get facts.now.whole k) IsHeldSet }
    ensures results { (g : ℕ) → slot ≡ Slot.Result g → IfSome (slice_get facts.now.results g) IsHeldSet }
    ensures levels { HaveLevels facts.now }
{
    held_levels(facts);
    match slot {
        Slot::Whole(k) => held_at(facts.whole.all(), k),
        Slot::Result(g) => held_at(facts.results.all(), g),
        _ => {}
    }
}

/// Raises a key or a function by a part of a slot, and reads how long its set is then.
fn raise_key<I: IntDomain>(
    alloc: Global,
    facts: &mut Facts<I>,
    slot: Slot,
    part: &Part<I>,
) -> Result<bool, NoMemory>
    requires { MayGet slot part.now facts.old }
    ensures rose { IfOk result (λ rose. rose ≡ true → (Has I.IsBelow facts.old (slot, part.now) → ⊥) × IsPut I.IsBelow slot part.now facts.old facts.new) }
    ensures had { IfOk result (λ rose. rose ≡ false → Has I.IsBelow facts.old (slot, part.now) × (facts.new ≡ facts.old)) }
    ensures same { OnErr result (facts.new ≡ facts.old) }
    ensures held { AreHeld facts.old → AreHeld facts.new }
{
    let copy = copied_part(alloc, part)?;
    let need = (slot, copy);
    let rose = raise_part(alloc, facts, &need)?;
    held_slot(facts, slot);
    Ok(rose)
}

/// Whether the point's set of a tracked cell has all of another one.
fn has_cell<I: IntDomain>(facts: &Facts<I>, n: u32, j: u32, set: &Abs<I>) -> bool
    requires { IfSome (cell_at facts.now n j) (λ held. AreOfOneKind set.now held) }
    ensures { IsTrue result ↔ AreValuesBelow I.IsBelow (Some set.now) (cell_at facts.now n j) }
{
    match facts.cell(n, j) {
        None => false,
        Some(held) => set.below(held),
    }
}

/// What is known at a point, with another set of a tracked cell.
fn told_cell<I: IntDomain>(
    alloc: Global,
    facts: &Facts<I>,
    n: u32,
    j: u32,
    set: &Abs<I>,
) -> Result<PointFact<I>, NoMemory>
    requires { is_some (cell_at facts.now n j) ≡ true }
    ensures { IfOk result (λ told. (fact : PointFactOf I) → fact_at facts.now n ≡ Some fact → told ≡ fact_with_cell fact j set.now) }
{
    match fact(facts, n) {
        None => unreachable!(),
        Some(known) => {
            let set = copied_set(alloc, set)?;
            with_cell(alloc, known, j, set)
        }
    }
}

/// Raises a point's set of a tracked cell.
fn raise_cell<I: IntDomain>(
    alloc: Global,
    facts: &mut Facts<I>,
    n: u32,
    j: u32,
    set: &Abs<I>,
) -> Result<bool, NoMemory>
    requires { MayGetCell facts.old n j set.now }
    ensures rose { IfOk result (λ rose. rose ≡ true → (Has I.IsBelow facts.old (Slot.CellAt n j, Part.Values (Some set.now)) → ⊥) × IsRisenBy I.IsBelow (λ fact. fact_with_cell fact j set.now) n facts.old facts.new) }
    ensures had { IfOk result (λ rose. rose ≡ false → Has I.IsBelow facts.old (Slot.CellAt n j, Part.Values (Some set.now)) × (facts.new ≡ facts.old)) }
    ensures same { OnErr result (facts.new ≡ facts.old) }
    ensures held { AreHeld facts.old → AreHeld facts.new }
{
    if has_cell(facts, n, j, set) {
        return Ok(false);
    }
    let told = told_cell(alloc, facts, n, j, set)?;
    raise_held_point(alloc, facts, n, &told)
}

/// Whether a point is reached, and a register and a tracked cell are no pair there.
fn are_apart<I>(facts: &Facts<I>, n: u32, r: u32, j: u32) -> bool
    ensures { result ≡ apart_in (fact_at facts.now n) r j }
{
    match fact(facts, n) {
        None => false,
        Some(known) => !is_pair(known, r, j),
    }
}

/// What is known at a point, but for that a register equals a tracked cell.
fn told_apart<I: IntDomain>(
    alloc: Global,
    facts: &Facts<I>,
    n: u32,
    r: u32,
    j: u32,
) -> Result<PointFact<I>, NoMemory>
    requires { is_some (fact_at facts.now n) ≡ true }
    ensures { IfOk result (λ told. (fact : PointFactOf I) → fact_at facts.now n ≡ Some fact → told ≡ fact_apart fact r j) }
{
    match fact(facts, n) {
        None => unreachable!(),
        Some(known) => without_pair(alloc, known, r, j),
    }
}

/// Raises a point by that a register does not equal a tracked cell there.
fn raise_apart<I: IntDomain>(
    alloc: Global,
    facts: &mut Facts<I>,
    n: u32,
    r: u32,
    j: u32,
) -> Result<bool, NoMemory>
    requires { MayPart facts.old n r j }
    ensures rose { IfOk result (λ rose. rose ≡ true → (Has I.IsBelow facts.old (Slot.Apart n r j, Part.Mark true) → ⊥) × IsRisenBy I.IsBelow (λ fact. fact_apart fact r j) n facts.old facts.new) }
    ensures had { IfOk result (λ rose. rose ≡ false → Has I.IsBelow facts.old (Slot.Apart n r j, Part.Mark true) × (facts.new ≡ facts.old)) }
    ensures same { OnErr result (facts.new ≡ facts.old) }
    ensures held { AreHeld facts.old → AreHeld facts.new }
{
    if are_apart(facts, n, r, j) {
        return Ok(false);
    }
    let told = told_apart(alloc, facts, n, r, j)?;
    raise_held_point(alloc, facts, n, &told)
}

/// Raises a point by a part of a tracked cell's set.
fn raise_cell_part<I: IntDomain>(
    alloc: Global,
    facts: &mut Facts<I>,
    n: u32,
    j: u32,
    part: &Part<I>,
) -> Result<bool, NoMemory>
    requires { MayRise (Slot.CellAt n j) part.now facts.old }
    ensures rose { IfOk result (λ rose. rose ≡ true → (Has I.IsBelow facts.old (Slot.CellAt n j, part.now) → ⊥) × IsRisen I.IsBelow (Slot.CellAt n j) part.now facts.old facts.new) }
    ensures had { IfOk result (λ rose. rose ≡ false → Has I.IsBelow facts.old (Slot.CellAt n j, part.now) × (facts.new ≡ facts.old)) }
    ensures same { OnErr result (facts.new ≡ facts.old) }
    ensures held { AreHeld facts.old → AreHeld facts.new }
{
    match part {
        Part::Values(values) => match values {
            None => Ok(false),
            Some(set) => raise_cell(alloc, facts, n, j, set),
        },
        _ => unreachable!(),
    }
}

/// Raises a point by the mark that a register and a tracked cell are no pair.
fn raise_apart_part<I: IntDomain>(
    alloc: Global,
    facts: &mut Facts<I>,
    n: u32,
    r: u32,
    j: u32,
    part: &Part<I>,
) -> Result<bool, NoMemory>
    requires { MayRise (Slot.Apart n r j) part.now facts.old }
    ensures rose { IfOk result (λ rose. rose ≡ true → (Has I.IsBelow facts.old (Slot.Apart n r j, part.now) → ⊥) × IsRisen I.IsBelow (Slot.Apart n r j) part.now facts.old facts.new) }
    ensures had { IfOk result (λ rose. rose ≡ false → Has I.IsBelow facts.old (Slot.Apart n r j, part.now) × (facts.new ≡ facts.old)) }
    ensures same { OnErr result (facts.new ≡ facts.old) }
    ensures held { AreHeld facts.old → AreHeld facts.new }
{
    match part {
        Part::Mark(apart) => {
            if *apart {
                raise_apart(alloc, facts, n, r, j)
            } else {
                Ok(false)
            }
        }
        _ => unreachable!(),
    }
}

/// Raises facts by a part of a slot, where they lack it, and says whether they rose.
pub(crate) fn raise_slot<I: IntDomain>(
    alloc: Global,
    facts: &mut Facts<I>,
    slot: Slot,
    part: &Part<I>,
) -> Result<bool, NoMemory>
    requires { MayRise slot part.now facts.old }
    ensures rose { IfOk result (λ rose. rose ≡ true → (Has I.IsBelow facts.old (slot, part.now) → ⊥) × IsRisen I.IsBelow slot part.now facts.old facts.new) }
    ensures had { IfOk result (λ rose. rose ≡ false → Has I.IsBelow facts.old (slot, part.now) × (facts.new ≡ facts.old)) }
    ensures same { OnErr result (facts.new ≡ facts.old) }
    ensures held { AreHeld facts.old → AreHeld facts.new }
{
    match slot {
        Slot::CellAt(n, j) => raise_cell_part(alloc, facts, n, j, part),
        Slot::Apart(n, r, j) => raise_apart_part(alloc, facts, n, r, j, part),
        _ => raise_key(alloc, facts, slot, part),
    }
}
