//! What is known at a point, where the registers are others.

ghost use Rattle.std.specs.Prelude.{◌≡◌, IfOk};
ghost use Rattle.cc_rules_calls.specs.Here.{fact_with};

use cc_program::num::{List, NoMemory};
use cc_state_points::lattice::IntDomain;
use cc_state_points::places::Abs;
use cc_state_points::state_facts::{PointFact, Shared};
use cc_state_points::state_shared::share_all;
use std::alloc::Global;

/// What is known of the flag and the tracked cells at a point, with the sets of other registers. No register is known to equal a cell. The
/// rows are shared.
pub(crate) fn with_locals<I: IntDomain>(
    alloc: Global,
    fact: &PointFact<I>,
    locals: Vec<Shared<Abs<I>>>,
) -> Result<PointFact<I>, NoMemory>
    ensures { IfOk result (λ made. made ≡ fact_with fact.now locals.items) }
{
    let rows = share_all(alloc, fact.rows.all())?;
    Ok(PointFact {
        off: fact.off,
        on: fact.on,
        locals: List::of(locals),
        rows: List::of(rows),
        same: List::of(Vec::new(alloc)),
    })
}
