//! Facts are a lattice, part by part.

ghost use Rattle.std.specs.Prelude.{◌≡◌, ◌↔◌, IsTrue, IfOk, length};
ghost use Rattle.std.specs.List.{AllZip};
ghost use Rattle.cc_lattice.specs.Tables.{AreJoins};
ghost use Rattle.cc_places.specs.Abstract.{AreOfOneKind};
ghost use Rattle.cc_state_facts.specs.Orders.{AreAlike, IsBelow, AreMarksBelow, AreLevelSetsBelow, AreSetsBelow, AreKnownAlike, IsKnownBelow, AreSetJoins, IsMarkJoin, IsLevelJoin, IsKnownJoin, AreJoined};
ghost use Rattle.cc_state_facts.specs.laws.OrderLaws.{alike_with_itself, alike_both_ways, below_with_itself, below_in_turn, facts_same};

use crate::facts::{Facts, Key, PointFact};
use crate::marks::{are_levels_below, are_marks_below, level_joins, mark_joins};
use crate::points::{are_known_below, known_joins};
use crate::sets::{are_below, joins};
use cc_lattice::{IntDomain, Lattice};
use cc_places::Abs;
use cc_program::num::{List, NoMemory};
use std::alloc::Global;

impl<I: IntDomain> Lattice for Facts<I> {
    ghost AreAlike = { AreAlike };

    ghost IsBelow = { IsBelow I.IsBelow };

    fn below(&self, other: &Facts<I>) -> bool {
        has_all_values(self, other) && has_all_marks(self, other) && has_all_levels(self, other)
    }

    fn join(&self, alloc: Global, other: &Facts<I>) -> Result<Facts<I>, NoMemory> {
        let mut both = Facts {
            keys: List::of(Vec::new(alloc)),
            whole: List::of(Vec::new(alloc)),
            results: List::of(Vec::new(alloc)),
            by_main: List::of(Vec::new(alloc)),
            by_handler: List::of(Vec::new(alloc)),
            levels: List::of(Vec::new(alloc)),
            from: List::of(Vec::new(alloc)),
            handler_reads: List::of(Vec::new(alloc)),
            handler_writes: List::of(Vec::new(alloc)),
            read_levels: List::of(Vec::new(alloc)),
            write_levels: List::of(Vec::new(alloc)),
            at: List::of(Vec::new(alloc)),
        };
        join_parts(alloc, self, other, &mut both)?;
        Ok(both)
    }

    ghost alike_itself = { alike_with_itself };

    ghost alike_back = { alike_both_ways };

    ghost below_itself = { λ x h. below_with_itself I.AreAlike I.IsBelow I.below_itself I.all_alike x h };

    ghost below_through = { λ x y z _ _ _ a b. below_in_turn I.AreAlike I.IsBelow I.below_through I.all_alike x y z a b };

    ghost below_both_ways = { λ x y h a b. facts_same I.AreAlike I.IsBelow I.below_both_ways I.all_alike x y h a b };
}

/// Whether other facts have all values of some.
fn has_all_values<I: IntDomain>(facts: &Facts<I>, other: &Facts<I>) -> bool
    requires { AreAlike facts.now other.now }
    ensures { IsTrue result ↔ (AreSetsBelow I.IsBelow facts.now.whole other.now.whole × AreSetsBelow I.IsBelow facts.now.results other.now.results ×
        AllZip (IsKnownBelow I.IsBelow) facts.now.at other.now.at) }
{
    are_below(facts.whole.all(), other.whole.all())
        && are_below(facts.results.all(), other.results.all())
        && are_known_below(facts.at.all(), other.at.all())
}

/// Whether other facts have all marks of some.
fn has_all_marks<I>(facts: &Facts<I>, other: &Facts<I>) -> bool
    requires { AreAlike facts.now other.now }
    ensures { IsTrue result ↔ (AreMarksBelow facts.now.by_main other.now.by_main × AreMarksBelow facts.now.by_handler other.now.by_handler ×
        AreMarksBelow facts.now.handler_reads other.now.handler_reads × AreMarksBelow facts.now.handler_writes other.now.handler_writes) }
{
    are_marks_below(facts.by_main.all(), other.by_main.all())
        && are_marks_below(facts.by_handler.all(), other.by_handler.all())
        && are_marks_below(facts.handler_reads.all(), other.handler_reads.all())
        && are_marks_below(facts.handler_writes.all(), other.handler_writes.all())
}

/// Whether other facts have all levels of some.
fn has_all_levels<I>(facts: &Facts<I>, other: &Facts<I>) -> bool
    requires { AreAlike facts.now other.now }
    ensures { IsTrue result ↔ (AreLevelSetsBelow facts.now.levels other.now.levels × AreLevelSetsBelow facts.now.from other.now.from ×
        AreLevelSetsBelow facts.now.read_levels other.now.read_levels × AreLevelSetsBelow facts.now.write_levels other.now.write_levels) }
{
    are_levels_below(facts.levels.all(), other.levels.all())
        && are_levels_below(facts.from.all(), other.from.all())
        && are_levels_below(facts.read_levels.all(), other.read_levels.all())
        && are_levels_below(facts.write_levels.all(), other.write_levels.all())
}

/// Writes the parts of two facts together.
fn join_parts<I: IntDomain>(
    alloc: Global,
    facts: &Facts<I>,
    other: &Facts<I>,
    both: &mut Facts<I>,
) -> Result<(), NoMemory>
    requires { AreAlike facts.now other.now }
    ensures { IfOk result (λ _. AreJoined I.IsBelow facts.now other.now both.new) }
{
    both.keys = copied(alloc, &facts.keys)?;
    both.whole = joined_sets(alloc, &facts.whole, &other.whole)?;
    both.results = joined_sets(alloc, &facts.results, &other.results)?;
    both.by_main = joined_marks(alloc, &facts.by_main, &other.by_main)?;
    both.by_handler = joined_marks(alloc, &facts.by_handler, &other.by_handler)?;
    both.levels = joined_levels(alloc, &facts.levels, &other.levels)?;
    both.from = joined_levels(alloc, &facts.from, &other.from)?;
    both.handler_reads = joined_marks(alloc, &facts.handler_reads, &other.handler_reads)?;
    both.handler_writes = joined_marks(alloc, &facts.handler_writes, &other.handler_writes)?;
    both.read_levels = joined_levels(alloc, &facts.read_levels, &other.read_levels)?;
    both.write_levels = joined_levels(alloc, &facts.write_levels, &other.write_levels)?;
    both.at = joined_points(alloc, &facts.at, &other.at)?;
    Ok(())
}

/// A copy of keys.
fn copied(alloc: Global, keys: &List<Key>) -> Result<List<Key>, NoMemory>
    ensures { IfOk result (λ copy. copy ≡ keys.now) }
{
    Ok(List::of(keys.all().iter().copied().collect(alloc)?))
}

fn joined_sets<I: IntDomain>(
    alloc: Global,
    sets: &List<Abs<I>>,
    others: &List<Abs<I>>,
) -> Result<List<Abs<I>>, NoMemory>
    requires { AllZip AreOfOneKind sets.now others.now }
    ensures { IfOk result (λ both. AreSetJoins I.IsBelow sets.now others.now both) }
{
    Ok(List::of(joins(alloc, sets.all(), others.all())?))
}

fn joined_marks(
    alloc: Global,
    marks: &List<bool>,
    others: &List<bool>,
) -> Result<List<bool>, NoMemory>
    requires { length marks.now ≡ length others.now }
    ensures { IfOk result (λ both. AreJoins IsMarkJoin marks.now others.now both) }
{
    Ok(List::of(mark_joins(alloc, marks.all(), others.all())?))
}

fn joined_levels(alloc: Global, sets: &List<u8>, others: &List<u8>) -> Result<List<u8>, NoMemory>
    requires { length sets.now ≡ length others.now }
    ensures { IfOk result (λ both. AreJoins IsLevelJoin sets.now others.now both) }
{
    Ok(List::of(level_joins(alloc, sets.all(), others.all())?))
}

fn joined_points<I: IntDomain>(
    alloc: Global,
    points: &List<Option<PointFact<I>>>,
    others: &List<Option<PointFact<I>>>,
) -> Result<List<Option<PointFact<I>>>, NoMemory>
    requires { AllZip AreKnownAlike points.now others.now }
    ensures { IfOk result (λ both. AreJoins (IsKnownJoin I.IsBelow) points.now others.now both) }
{
    Ok(List::of(known_joins(alloc, points.all(), others.all())?))
}
