//! Sets of values that are had and needed, and copies of parts.

ghost use Rattle.std.specs.Prelude.{◌≡◌, ◌↔◌, IsTrue, IfOk};
ghost use Rattle.std.specs.Option.{option_copied};
ghost use Rattle.cc_rules_asked.specs.CcPlaces.Abstract.{IsBelowAbs};
ghost use Rattle.cc_rules_asked.specs.CcRulesNeeds.Needs.{AreValuesBelow};

use cc_program::num::NoMemory;
use cc_rules_asked::copied_set;
use cc_rules_asked::lattice::{IntDomain, Lattice};
use cc_rules_asked::places::Abs;
use cc_rules_asked::rules_needs::Part;
use std::alloc::Global;

/// Whether all values of a set are in another one, which is of the same kind.
fn is_below<I: IntDomain>(values: &Abs<I>, others: &Abs<I>) -> bool
    ensures { IsTrue result ↔ IsBelowAbs I.IsBelow values.now others.now }
{
    match values {
        Abs::Ints(numbers) => match others {
            Abs::Ints(more) => numbers.below(more),
            Abs::Addrs(_) => false,
        },
        Abs::Addrs(places) => match others {
            Abs::Ints(_) => false,
            Abs::Addrs(more) => places.below(more),
        },
    }
}

/// Whether a set that is held has what is needed.
pub(crate) fn has_values<I: IntDomain>(needed: Option<&Abs<I>>, held: Option<&Abs<I>>) -> bool
    ensures { IsTrue result ↔ AreValuesBelow I.IsBelow (option_copied needed.entry) (option_copied held.entry) }
{
    match needed {
        None => true,
        Some(values) => match held {
            None => false,
            Some(others) => is_below(values, others),
        },
    }
}

/// A copy of a set, where there is one.
pub(crate) fn copied_values<I: IntDomain>(
    alloc: Global,
    values: Option<&Abs<I>>,
) -> Result<Option<Abs<I>>, NoMemory>
    ensures { IfOk result (λ copy. copy ≡ option_copied values.entry) }
{
    match values {
        None => Ok(None),
        Some(values) => Ok(Some(copied_set(alloc, values)?)),
    }
}

/// A copy of a part.
pub(crate) fn copied_part<I: IntDomain>(alloc: Global, part: &Part<I>) -> Result<Part<I>, NoMemory>
    ensures { IfOk result (λ copy. copy ≡ part.now) }
{
    match part {
        Part::Mark(mark) => Ok(Part::Mark(*mark)),
        Part::LevelSet(levels) => Ok(Part::LevelSet(*levels)),
        Part::Flags(off, on) => Ok(Part::Flags(*off, *on)),
        Part::Values(values) => Ok(Part::Values(copied_values(alloc, values.as_ref())?)),
    }
}
