//! Where expressions are worked at a point, whether a run may come there or not.

ghost use Rattle.std.specs.Prelude.{◌≡◌, ℕ, Some};
ghost use Rattle.std.specs.Option.{option_copied};
ghost use Rattle.cc_slots_points.specs.Frames.{IsFrame};
ghost use Rattle.cc_slots_points.specs.Points.{IsContextOf};
ghost use Rattle.cc_state_points.specs.CcStateFacts.declared.facts.Facts.{Facts as FactsOf};
ghost use Rattle.cc_state_points.specs.CcStateFacts.declared.facts.PointFact.{PointFact as PointFactOf};
ghost use Rattle.cc_state_points.specs.CcStateFacts.Facts.{fact_at as fact_at_point};

use crate::frames::Frame;
use cc_program::num::at;
use cc_program::{Func, Program};
use cc_state_points::places::Abs;
use cc_state_points::state_facts::{Facts, PointFact, Shared};
use cc_state_points::state_values::Context;

/// What is known at a point.
pub(crate) fn fact_at<I>(facts: &Facts<I>, point: u32) -> Option<&PointFact<I>>
    ensures { option_copied result ≡ fact_at_point facts.now point }
{
    at(facts.at.all(), point as usize)?.as_ref()
}

/// The sets of the registers, where anything is known.
fn sets_of<I>(fact: Option<&PointFact<I>>) -> &[Shared<Abs<I>>]
    ensures { (known : PointFactOf I) → option_copied fact.entry ≡ Some known → result.now ≡ known.locals }
{
    match fact {
        None => &[],
        Some(fact) => fact.locals.all(),
    }
}

/// Where expressions of a function are worked, with what is known at a point of it.
pub(crate) fn context_of<'p, I>(
    p: &'p Program,
    id: u32,
    func: &'p Func,
    frame: &'p Frame,
    fact: Option<&'p PointFact<I>>,
) -> Context<'p, I>
    requires { IsFrame func.now frame.now }
    ensures { (facts : FactsOf I) (n : ℕ) → option_copied fact.entry ≡ fact_at_point facts n → IsContextOf p.now facts n id func.now result }
{
    Context {
        program: p,
        id,
        func,
        registers: frame.registers.all(),
        sets: sets_of(fact),
    }
}

/// A context is done with.
pub(crate) fn end<I>(c: Context<'_, I>) {
    let Context {
        program: _,
        id: _,
        func: _,
        registers: _,
        sets: _,
    } = c;
}
