//! What a memory holds of facts, as it is seen by reading lengths.

ghost use Rattle.std.specs.Prelude.{All, IfSome, slice_get};
ghost use Rattle.cc_state_limits.specs.Held.{IsHeldSet, IsHeldRow, IsHeldPoint, IsHeldKnown, HaveLevels, AreHeld};
ghost use Rattle.cc_state_room.specs.Small.{IsByte};

use cc_program::num::at;
use cc_state_reads::places::Abs;
use cc_state_reads::state_facts::{Facts, PointFact, Row, Shared};

/// A set is held: its members are counted by 64 bits.
pub fn held_set<I>(set: &Abs<I>)
    ensures { IsHeldSet set.now }
{
    match set {
        Abs::Ints(_) => {}
        Abs::Addrs(places) => {
            let _count = places.members.all().len();
        }
    }
}

/// So is each of some.
fn held_sets<I>(sets: &[Abs<I>])
    ensures { All IsHeldSet sets.now }
{
    for set in sets {
        held_set(set);
    }
}

/// So is each of some that points share.
fn held_shared<I>(sets: &[Shared<Abs<I>>])
    ensures { All IsHeldSet sets.now }
{
    for set in sets {
        held_set(set.get());
    }
}

/// Each row is.
fn held_rows<I>(rows: &[Shared<Row<I>>])
    ensures { All IsHeldRow rows.now }
{
    for row in rows {
        held_shared(row.get().cells.all());
    }
}

/// What is known at a point is.
fn held_fact<I>(fact: &PointFact<I>)
    ensures { IsHeldPoint fact.now }
{
    held_shared(fact.locals.all());
    held_rows(fact.rows.all());
}

/// So is that of a point that need not be reached.
fn held_known<I>(known: &Option<PointFact<I>>)
    ensures { IsHeldKnown known.now }
{
    match known {
        None => {}
        Some(fact) => held_fact(fact),
    }
}

/// At each point it is.
fn held_points<I>(at: &[Option<PointFact<I>>])
    ensures { All IsHeldKnown at.now }
{
    for known in at {
        held_known(known);
    }
}

/// Levels are bytes.
fn held_bytes(levels: &[u8])
    ensures { All IsByte levels.now }
{}

/// All levels of facts are.
pub fn held_levels<I>(facts: &Facts<I>)
    ensures { HaveLevels facts.now }
{
    held_bytes(facts.levels.all());
    held_bytes(facts.from.all());
    held_bytes(facts.read_levels.all());
    held_bytes(facts.write_levels.all());
}

/// What is known at a point of facts is held.
pub fn held_point<I>(facts: &Facts<I>, point: u32)
    ensures { IfSome (slice_get facts.now.at point) IsHeldKnown }
{
    match at(facts.at.all(), point as usize) {
        None => {}
        Some(known) => held_known(known),
    }
}

/// Facts that stand in memory are held there. The call reads lengths alone.
pub fn held<I>(facts: &Facts<I>)
    ensures { AreHeld facts.now }
{
    held_sets(facts.whole.all());
    held_sets(facts.results.all());
    held_levels(facts);
    held_points(facts.at.all());
}
