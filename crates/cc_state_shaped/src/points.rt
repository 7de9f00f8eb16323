//! Whether what is known at points is of the shape of their functions.

ghost use Rattle.std.specs.Prelude.{◌≡◌, ◌↔◌, ◌⊎◌, ◌<◌, ℕ, IsTrue, true, length};
ghost use Rattle.std.specs.List.{AllPairs, Contains};
ghost use Rattle.cc_state.specs.Shape.{AreSets, AreRows, IsRegisterType, IsTrackedType, IsPointFact};
ghost use Rattle.cc_state_reads.specs.CcStateFacts.Facts.{cell_of, local_of};
ghost use Rattle.cc_state_reads.specs.CcStateFacts.Orders.{IsBefore};
ghost use Rattle.cc_state_reads.specs.CcStateKeys.Tracked.{registers as registers_of, tracked};
ghost use Rattle.cc_state_reads.specs.CcStateOperators.Domains.{domain};
ghost use Rattle.cc_state_shaped.specs.Layout.{IsLayoutOf};
ghost use Rattle.cc_state_shaped.specs.Parts.{HaveLocals, HaveCells, HavePairs, IsFlagged, IsFactIn, IsFactAt, IsKnownAt, AreKnown};

use crate::layout::Layout;
use crate::lists::{are_register_sets, have_cell_sets};
use crate::pairs::{are_within, do_ascend};
use crate::rows::are_rows;
use cc_program::Func;
use cc_program::num::at;
use cc_state_reads::lattice::IntDomain;
use cc_state_reads::state_facts::PointFact;

/// Whether the flag may be one way or the other.
fn is_flagged<I>(fact: &PointFact<I>) -> bool
    ensures { IsTrue result ↔ IsFlagged fact.now }
{
    fact.off || fact.on
}

/// Whether there are as many sets as registers, each of what its register holds.
fn have_locals<I: IntDomain>(
    layout: &Layout<'_>,
    f: &Func,
    registers: &[u32],
    fact: &PointFact<I>,
) -> bool
    requires layout { IsLayoutOf layout.now.program.now layout.now }
    requires registers { registers.now ≡ registers_of f.now }
    ensures { IsTrue result ↔ HaveLocals (domain I.Has I.IsBelow I.OpGives I.OpOneGives I.ToGives I.KeepGives I.members_of) layout.now.program.now f.now fact.now }
{
    let sets = fact.locals.all();
    sets.len() == registers.len() && are_register_sets(layout, f, registers, sets)
}

/// Whether there are rows of as many sets as tracked cells, each of what its cell holds.
fn have_cells<I: IntDomain>(layout: &Layout<'_>, fact: &PointFact<I>) -> bool
    requires { IsLayoutOf layout.now.program.now layout.now }
    ensures { IsTrue result ↔ HaveCells (domain I.Has I.IsBelow I.OpGives I.OpOneGives I.ToGives I.KeepGives I.members_of) layout.now.program.now fact.now }
{
    let count = layout.tracked.all().len();
    are_rows(fact.rows.all(), count) && have_cell_sets(layout, fact, count as u32)
}

/// Whether pairs are of these registers and the tracked cells, and in order.
fn have_pairs<I>(layout: &Layout<'_>, registers: &[u32], fact: &PointFact<I>) -> bool
    ensures { IsTrue result ↔ HavePairs fact.now (length registers.now) (length layout.now.tracked) }
{
    let pairs = fact.same.all();
    are_within(pairs, registers.len(), layout.tracked.all().len()) && do_ascend(pairs)
}

/// Whether what is known of registers and cells is of the shape of their function.
fn have_sets<I: IntDomain>(
    layout: &Layout<'_>,
    f: &Func,
    registers: &[u32],
    fact: &PointFact<I>,
) -> bool
    requires layout { IsLayoutOf layout.now.program.now layout.now }
    requires registers { registers.now ≡ registers_of f.now }
    ensures { IsTrue result ↔ (HaveLocals (domain I.Has I.IsBelow I.OpGives I.OpOneGives I.ToGives I.KeepGives I.members_of) layout.now.program.now f.now fact.now × HaveCells (domain I.Has I.IsBelow I.OpGives I.OpOneGives I.ToGives I.KeepGives I.members_of) layout.now.program.now fact.now) }
{
    have_locals(layout, f, registers, fact) && have_cells(layout, fact)
}

/// Whether the flag may be one way or the other, and pairs are of these registers and the tracked cells, in order.
fn has_flag_and_pairs<I>(layout: &Layout<'_>, registers: &[u32], fact: &PointFact<I>) -> bool
    ensures { IsTrue result ↔ (IsFlagged fact.now × HavePairs fact.now (length registers.now) (length layout.now.tracked)) }
{
    is_flagged(fact) && have_pairs(layout, registers, fact)
}

/// Whether each part of what is known at a point is of the shape of its function.
fn has_parts<I: IntDomain>(
    layout: &Layout<'_>,
    f: &Func,
    registers: &[u32],
    fact: &PointFact<I>,
) -> bool
    requires layout { IsLayoutOf layout.now.program.now layout.now }
    requires registers { registers.now ≡ registers_of f.now }
    ensures { IsTrue result ↔ ((HaveLocals (domain I.Has I.IsBelow I.OpGives I.OpOneGives I.ToGives I.KeepGives I.members_of) layout.now.program.now f.now fact.now × HaveCells (domain I.Has I.IsBelow I.OpGives I.OpOneGives I.ToGives I.KeepGives I.members_of) layout.now.program.now fact.now) ×
        (IsFlagged fact.now × HavePairs fact.now (length registers.now) (length layout.now.tracked))) }
{
    have_sets(layout, f, registers, fact) && has_flag_and_pairs(layout, registers, fact)
}

/// Whether what is known at a point is of the shape of its function, of which these are the registers.
fn is_point_fact<I: IntDomain>(
    layout: &Layout<'_>,
    f: &Func,
    registers: &[u32],
    fact: &PointFact<I>,
) -> bool
    requires layout { IsLayoutOf layout.now.program.now layout.now }
    requires registers { registers.now ≡ registers_of f.now }
    ensures { IsTrue result ↔ IsPointFact (domain I.Has I.IsBelow I.OpGives I.OpOneGives I.ToGives I.KeepGives I.members_of) layout.now.program.now f.now fact.now }
{
    has_parts(layout, f, registers, fact)
}

/// Whether what is known at a point is of the shape of a function by its id, where there is one.
fn is_fact_in<I: IntDomain>(layout: &Layout<'_>, id: usize, fact: &PointFact<I>) -> bool
    requires { IsLayoutOf layout.now.program.now layout.now }
    ensures { IsTrue result ↔ IsFactIn (domain I.Has I.IsBelow I.OpGives I.OpOneGives I.ToGives I.KeepGives I.members_of) layout.now.program.now id fact.now }
{
    match at(layout.program.funcs.all(), id) {
        None => true,
        Some(func) => match at(layout.registers.all(), id) {
            None => unreachable!(),
            Some(registers) => is_point_fact(layout, func, registers.all(), fact),
        },
    }
}

/// Whether what is known is of the shape of the function of the point with a number, where there is one.
fn is_fact_at<I: IntDomain>(layout: &Layout<'_>, number: usize, fact: &PointFact<I>) -> bool
    requires { IsLayoutOf layout.now.program.now layout.now }
    ensures { IsTrue result ↔ IsFactAt (domain I.Has I.IsBelow I.OpGives I.OpOneGives I.ToGives I.KeepGives I.members_of) layout.now.program.now number fact.now }
{
    match at(layout.flow.points.all(), number) {
        None => true,
        Some(point) => is_fact_in(layout, point.func as usize, fact),
    }
}

/// The same of what may be known.
fn is_known_at<I: IntDomain>(
    layout: &Layout<'_>,
    number: usize,
    known: &Option<PointFact<I>>,
) -> bool
    requires { IsLayoutOf layout.now.program.now layout.now }
    ensures { IsTrue result ↔ IsKnownAt (domain I.Has I.IsBelow I.OpGives I.OpOneGives I.ToGives I.KeepGives I.members_of) layout.now.program.now number known.now }
{
    match known {
        None => true,
        Some(fact) => is_fact_at(layout, number, fact),
    }
}

/// Whether what is known at each point is of the shape of its function.
pub(crate) fn are_known<I: IntDomain>(layout: &Layout<'_>, at: &[Option<PointFact<I>>]) -> bool
    requires { IsLayoutOf layout.now.program.now layout.now }
    ensures { IsTrue result ↔ AreKnown (domain I.Has I.IsBelow I.OpGives I.OpOneGives I.ToGives I.KeepGives I.members_of) layout.now.program.now at.now }
{
    for (number, known) in at.iter().enumerate() {
        if !is_known_at(layout, number, known) {
            return false;
        }
    }
    true
}
