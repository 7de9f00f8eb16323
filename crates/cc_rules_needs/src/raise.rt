//! Facts are raised by a part: the least ones above them that have it.

ghost use Rattle.std.specs.Prelude.{◌≡◌, ◌<◌, ◌||◌, true, false, IfOk, OnErr, length, slice_set, bit_or};
ghost use Rattle.cc_rules_needs.specs.Needs.{get, Has};
ghost use Rattle.cc_rules_needs.specs.Raised.{MayBePut, MayGet, IsLeastIn, IsPut, held_mark, held_levels, put_mark as with_mark, put_levels as with_levels};
ghost use Rattle.cc_state_facts.specs.Facts.{mark_of, levels_of};

use crate::lacking::has;
use crate::needs::{Need, Part, Slot};
use cc_lattice::{IntDomain, Lattice};
use cc_places::Abs;
use cc_program::num::{List, NoMemory};
use cc_state_facts::{Facts, levels_of_both};
use std::alloc::Global;
use std::mem;

/// Writes an element of a list.
pub(crate) fn set<T: Drop>(alloc: Global, list: &mut List<T>, at: usize, value: T)
    requires { at < length list.old }
    ensures { list.new ≡ slice_set list.old at value }
{
    let mut items = mem::replace(list, List::of(Vec::new(alloc))).into_vec();
    items[at] = value;
    *list = List::of(items);
}

/// Sets a mark.
fn raise_mark(alloc: Global, marks: &mut List<bool>, n: u32, mark: bool)
    requires { n < length marks.old }
    ensures { marks.new ≡ slice_set marks.old n (mark_of marks.old n || mark) }
{
    let held = marks.all()[n as usize];
    set(alloc, marks, n as usize, held || mark);
}

/// Joins a set of levels with some more.
fn raise_levels(alloc: Global, sets: &mut List<u8>, n: u32, levels: u8)
    requires { n < length sets.old }
    ensures { sets.new ≡ slice_set sets.old n (bit_or (levels_of sets.old n) levels) }
{
    let held = sets.all()[n as usize];
    set(alloc, sets, n as usize, levels_of_both(held, levels));
}

/// Joins a set of values with some more.
fn raise_values<I: IntDomain>(
    alloc: Global,
    sets: &mut List<Abs<I>>,
    n: u32,
    values: &Abs<I>,
) -> Result<(), NoMemory>
    requires { MayBePut sets.old n values.now }
    ensures raised { IfOk result (λ _. IsLeastIn I.IsBelow sets.old n values.now sets.new) }
    ensures same { OnErr result (sets.new ≡ sets.old) }
{
    let joined = sets.all()[n as usize].join(alloc, values)?;
    set(alloc, sets, n as usize, joined);
    Ok(())
}

/// A mark of a slot is set.
fn put_mark<I>(alloc: Global, facts: &mut Facts<I>, slot: Slot, mark: bool)
    requires { MayGet slot (Part.Mark mark) facts.old }
    ensures { facts.new ≡ with_mark slot (held_mark (get slot facts.old) || mark) facts.old }
{
    match slot {
        Slot::HandlerReads(k) => raise_mark(alloc, &mut facts.handler_reads, k, mark),
        Slot::HandlerWrites(k) => raise_mark(alloc, &mut facts.handler_writes, k, mark),
        Slot::ByMain(g) => raise_mark(alloc, &mut facts.by_main, g, mark),
        Slot::ByHandler(g) => raise_mark(alloc, &mut facts.by_handler, g, mark),
        _ => unreachable!(),
    }
}

/// The levels of a slot get some more.
fn put_levels<I>(alloc: Global, facts: &mut Facts<I>, slot: Slot, levels: u8)
    requires { MayGet slot (Part.LevelSet levels) facts.old }
    ensures { facts.new ≡ with_levels slot (bit_or (held_levels (get slot facts.old)) levels) facts.old }
{
    match slot {
        Slot::ReadLevels(k) => raise_levels(alloc, &mut facts.read_levels, k, levels),
        Slot::WriteLevels(k) => raise_levels(alloc, &mut facts.write_levels, k, levels),
        Slot::Levels(g) => raise_levels(alloc, &mut facts.levels, g, levels),
        Slot::From(g) => raise_levels(alloc, &mut facts.from, g, levels),
        _ => unreachable!(),
    }
}

/// The values of a slot get some more.
fn put_values<I: IntDomain>(
    alloc: Global,
    facts: &mut Facts<I>,
    slot: Slot,
    values: &Abs<I>,
) -> Result<(), NoMemory>
    requires { MayGet slot (Part.Values (Some values.now)) facts.old }
    ensures raised { IfOk result (λ _. IsPut I.IsBelow slot (Part.Values (Some values.now)) facts.old facts.new) }
    ensures same { OnErr result (facts.new ≡ facts.old) }
{
    match slot {
        Slot::Whole(k) => raise_values(alloc, &mut facts.whole, k, values),
        Slot::Result(g) => raise_values(alloc, &mut facts.results, g, values),
        _ => unreachable!(),
    }
}

/// A slot gets what it had and a part.
fn put<I: IntDomain>(alloc: Global, facts: &mut Facts<I>, need: &Need<I>) -> Result<(), NoMemory>
    requires { MayGet need.now.0 need.now.1 facts.old }
    ensures raised { IfOk result (λ _. IsPut I.IsBelow need.now.0 need.now.1 facts.old facts.new) }
    ensures same { OnErr result (facts.new ≡ facts.old) }
{
    match &need.1 {
        Part::Mark(mark) => put_mark(alloc, facts, need.0, *mark),
        Part::LevelSet(levels) => put_levels(alloc, facts, need.0, *levels),
        Part::Values(Some(values)) => put_values(alloc, facts, need.0, values)?,
        _ => unreachable!(),
    }
    Ok(())
}

/// Raises facts by a part of a key or a function, where they lack it, and says whether they rose.
pub fn raise_part<I: IntDomain>(
    alloc: Global,
    facts: &mut Facts<I>,
    need: &Need<I>,
) -> Result<bool, NoMemory>
    requires { MayGet need.now.0 need.now.1 facts.old }
    ensures rose { IfOk result (λ rose. rose ≡ true → (Has I.IsBelow facts.old need.now → ⊥) × IsPut I.IsBelow need.now.0 need.now.1 facts.old facts.new) }
    ensures had { IfOk result (λ rose. rose ≡ false → Has I.IsBelow facts.old need.now × (facts.new ≡ facts.old)) }
    ensures same { OnErr result (facts.new ≡ facts.old) }
{
    if has(facts, need) {
        return Ok(false);
    }
    put(alloc, facts, need)?;
    Ok(true)
}
