//! What is known at a point, changed in one thing.

ghost use Rattle.std.specs.Prelude.{◌≡◌, ◌/◌, ◌<◌, true, is_some, length, slice_get, slice_set, Some, IfOk};
ghost use Rattle.std.specs.List.{filter};
ghost use Rattle.cc_rules_raised.specs.Completed.{row_with, fact_with_cell, is_other_pair, fact_apart};
ghost use Rattle.cc_rules_asked.specs.CcStateFacts.Facts.{row_length, cell_of};

use cc_program::num::{List, NoMemory, at};
use cc_rules_asked::lattice::IntDomain;
use cc_rules_asked::places::Abs;
use cc_rules_asked::state_facts::{PointFact, Row, Shared, copied_point};
use cc_rules_asked::state_shared::share_all;
use std::alloc::Global;
use std::mem;

/// How many tracked cells a row has, where it is not the last.
const ROW_LENGTH: usize = 16;

/// Writes an element of a list.
fn put<T: Drop>(alloc: Global, list: &mut List<T>, at: usize, value: T)
    requires { at < length list.old }
    ensures { list.new ≡ slice_set list.old at value }
{
    let mut items = mem::replace(list, List::of(Vec::new(alloc))).into_vec();
    items[at] = value;
    *list = List::of(items);
}

/// A row with another set at a place. The other sets are shared.
fn changed_row<I: IntDomain>(
    alloc: Global,
    row: &Row<I>,
    at: usize,
    set: Abs<I>,
) -> Result<Row<I>, NoMemory>
    requires { at < length row.now.cells }
    ensures { IfOk result (λ made. made ≡ row_with row.now at set) }
{
    let cell = Shared::new(alloc, set)?;
    let mut cells = List::of(share_all(alloc, row.cells.all())?);
    put(alloc, &mut cells, at, cell);
    Ok(Row { cells })
}

/// The row of a tracked cell.
fn row_of<I>(fact: &PointFact<I>, cell: u32) -> &Row<I>
    requires { is_some (cell_of fact.now cell) ≡ true }
    ensures { slice_get fact.now.rows (cell / row_length) ≡ Some result.now }
{
    match at(fact.rows.all(), cell as usize / ROW_LENGTH) {
        None => unreachable!(),
        Some(row) => row.get(),
    }
}

/// What is known, with another set of a tracked cell. The other rows are shared.
pub(crate) fn with_cell<I: IntDomain>(
    alloc: Global,
    fact: &PointFact<I>,
    cell: u32,
    set: Abs<I>,
) -> Result<PointFact<I>, NoMemory>
    requires { is_some (cell_of fact.now cell) ≡ true }
    ensures { IfOk result (λ made. made ≡ fact_with_cell fact.now cell set) }
{
    let changed = changed_row(alloc, row_of(fact, cell), cell as usize % ROW_LENGTH, set)?;
    let shared = Shared::new(alloc, changed)?;
    let mut made = copied_point(alloc, fact)?;
    put(alloc, &mut made.rows, cell as usize / ROW_LENGTH, shared);
    Ok(made)
}

/// Pairs without the one of a register and a tracked cell.
fn other_pairs(
    alloc: Global,
    pairs: &[(u32, u32)],
    register: u32,
    cell: u32,
) -> Result<Vec<(u32, u32)>, NoMemory>
    ensures { IfOk result (λ others. others.items ≡ filter (is_other_pair register cell) pairs.now) }
{
    let mut others = Vec::new(alloc);
    for pair in pairs {
        if !(pair.0 == register && pair.1 == cell) {
            others.push(*pair)?;
        }
    }
    Ok(others)
}

/// What is known, but for that a register equals a tracked cell.
pub(crate) fn without_pair<I: IntDomain>(
    alloc: Global,
    fact: &PointFact<I>,
    register: u32,
    cell: u32,
) -> Result<PointFact<I>, NoMemory>
    ensures { IfOk result (λ made. made ≡ fact_apart fact.now register cell) }
{
    let others = other_pairs(alloc, fact.same.all(), register, cell)?;
    let mut made = copied_point(alloc, fact)?;
    made.same = List::of(others);
    Ok(made)
}
