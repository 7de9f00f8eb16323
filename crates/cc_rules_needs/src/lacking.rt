//! Whether facts have what is needed of them.

ghost use Rattle.std.specs.Prelude.{◌≡◌, ◌↔◌, IsTrue, MatchOption};
ghost use Rattle.std.specs.Option.{option_copied};
ghost use Rattle.cc_places.specs.Abstract.{IsBelowAbs};
ghost use Rattle.cc_rules_needs.specs.Needs.{apart_in, flags_in, IsBelowPart, Has, HasAll, IsFirstLacking};
ghost use Rattle.cc_state_facts.specs.Facts.{fact_at, mark_of, levels_of};

use crate::needs::{Need, Part, Slot};
use cc_lattice::{IntDomain, Lattice};
use cc_places::Abs;
use cc_program::num::at;
use cc_state_facts::{Facts, PointFact, are_levels_within, is_pair};

/// Whether all values of a set are in another one, which is of the same kind.
pub(crate) fn is_below<I: IntDomain>(values: &Abs<I>, others: &Abs<I>) -> bool
    ensures { IsTrue result ↔ IsBelowAbs I.IsBelow values.now others.now }
{
    match values {
        Abs::Ints(numbers) => match others {
            Abs::Ints(more) => numbers.below(more),
            Abs::Addrs(_) => false,
        },
        Abs::Addrs(places) => match others {
            Abs::Ints(_) => false,
            Abs::Addrs(more) => places.below(more),
        },
    }
}

fn has_mark<I: IntDomain>(part: &Part<I>, held: bool) -> bool
    ensures { IsTrue result ↔ IsBelowPart I.IsBelow part.now (Part.Mark held) }
{
    match part {
        Part::Mark(mark) => !*mark || held,
        Part::LevelSet(_) => false,
        Part::Flags(_, _) => false,
        Part::Values(_) => false,
    }
}

fn has_levels<I: IntDomain>(part: &Part<I>, held: u8) -> bool
    ensures { IsTrue result ↔ IsBelowPart I.IsBelow part.now (Part.LevelSet held) }
{
    match part {
        Part::Mark(_) => false,
        Part::LevelSet(levels) => are_levels_within(*levels, held),
        Part::Flags(_, _) => false,
        Part::Values(_) => false,
    }
}

fn has_flags<I: IntDomain>(part: &Part<I>, held_off: bool, held_on: bool) -> bool
    ensures { IsTrue result ↔ IsBelowPart I.IsBelow part.now (Part.Flags held_off held_on) }
{
    match part {
        Part::Mark(_) => false,
        Part::LevelSet(_) => false,
        Part::Flags(off, on) => (!*off || held_off) && (!*on || held_on),
        Part::Values(_) => false,
    }
}

fn has_values<I: IntDomain>(part: &Part<I>, held: Option<&Abs<I>>) -> bool
    ensures { IsTrue result ↔ IsBelowPart I.IsBelow part.now (Part.Values (option_copied held.entry)) }
{
    match part {
        Part::Mark(_) => false,
        Part::LevelSet(_) => false,
        Part::Flags(_, _) => false,
        Part::Values(None) => true,
        Part::Values(Some(values)) => match held {
            Some(others) => is_below(values, others),
            None => false,
        },
    }
}

fn mark(marks: &[bool], n: u32) -> bool
    ensures { result ≡ mark_of marks.now n }
{
    match at(marks, n as usize) {
        Some(mark) => *mark,
        None => false,
    }
}

fn levels(sets: &[u8], n: u32) -> u8
    ensures { result ≡ levels_of sets.now n }
{
    match at(sets, n as usize) {
        Some(levels) => *levels,
        None => 0,
    }
}

/// What is known at a point.
pub(crate) fn fact<I>(facts: &Facts<I>, point: u32) -> Option<&PointFact<I>>
    ensures { option_copied result ≡ fact_at facts.now point }
{
    at(facts.at.all(), point as usize)?.as_ref()
}

fn is_apart<I>(fact: Option<&PointFact<I>>, register: u32, cell: u32) -> bool
    ensures { result ≡ apart_in (option_copied fact.entry) register cell }
{
    match fact {
        Some(fact) => !is_pair(fact, register, cell),
        None => false,
    }
}

fn has_flag<I: IntDomain>(part: &Part<I>, fact: Option<&PointFact<I>>) -> bool
    ensures { IsTrue result ↔ IsBelowPart I.IsBelow part.now (flags_in (option_copied fact.entry)) }
{
    match fact {
        Some(fact) => has_flags(part, fact.off, fact.on),
        None => has_flags(part, false, false),
    }
}

/// Whether facts have a part.
pub fn has<I: IntDomain>(facts: &Facts<I>, need: &Need<I>) -> bool
    ensures { IsTrue result ↔ Has I.IsBelow facts.now need.now }
{
    let part = &need.1;
    match need.0 {
        Slot::Whole(k) => has_values(part, at(facts.whole.all(), k as usize)),
        Slot::HandlerReads(k) => has_mark(part, mark(facts.handler_reads.all(), k)),
        Slot::HandlerWrites(k) => has_mark(part, mark(facts.handler_writes.all(), k)),
        Slot::ReadLevels(k) => has_levels(part, levels(facts.read_levels.all(), k)),
        Slot::WriteLevels(k) => has_levels(part, levels(facts.write_levels.all(), k)),
        Slot::Result(g) => has_values(part, at(facts.results.all(), g as usize)),
        Slot::ByMain(g) => has_mark(part, mark(facts.by_main.all(), g)),
        Slot::ByHandler(g) => has_mark(part, mark(facts.by_handler.all(), g)),
        Slot::Levels(g) => has_levels(part, levels(facts.levels.all(), g)),
        Slot::From(g) => has_levels(part, levels(facts.from.all(), g)),
        Slot::Flag(n) => has_flag(part, fact(facts, n)),
        Slot::LocalAt(n, r) => has_values(part, facts.local(n, r)),
        Slot::CellAt(n, j) => has_values(part, facts.cell(n, j)),
        Slot::Apart(n, r, j) => has_mark(part, is_apart(fact(facts, n), r, j)),
    }
}

/// The first of some needs that facts lack, by its position. None where they have all.
pub fn first_lacking<I: IntDomain>(facts: &Facts<I>, needs: &[Need<I>]) -> Option<usize>
    ensures { MatchOption result (HasAll I.IsBelow needs.now facts.now) (λ k. IsFirstLacking I.IsBelow needs.now facts.now k) }
{
    for (k, need) in needs.iter().enumerate() {
        if !has(facts, need) {
            return Some(k);
        }
    }
    None
}
