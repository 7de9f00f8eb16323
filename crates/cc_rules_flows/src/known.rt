//! What is known at a point, with what a statement changes.

ghost use Rattle.std.specs.Prelude.{◌≡◌, ◌<◌, ◌/◌, ◌++◌, ℕ, length, slice_get, slice_set, IfOk, IfSome, OnOk, Some, is_some, true};
ghost use Rattle.std.specs.List.{filter};
ghost use Rattle.cc_rules_flows.specs.Kept.{KeepsShape};
ghost use Rattle.cc_rules_flows.specs.Known.{Tells, is_of_other_register, is_of_other_cell, comes_before};
ghost use Rattle.cc_rules_needs.specs.Flowing.{Flowing, with_local, with_pair, with_cell, with_flags};
ghost use Rattle.cc_state_reads.specs.CcStateFacts.Facts.{cell_of, row_length};

use cc_program::num::{List, NoMemory, at};
use cc_state_reads::lattice::IntDomain;
use cc_state_reads::places::Abs;
use cc_state_reads::state_facts::{PointFact, Row, Shared};
use cc_state_reads::state_shared::share_all;
use std::alloc::Global;
use std::mem;

/// How many tracked cells a row has, where it is not the last.
const ROW_LENGTH: usize = 16;

/// The pairs of other registers.
fn without_register(
    alloc: Global,
    pairs: &[(u32, u32)],
    register: u32,
) -> Result<Vec<(u32, u32)>, NoMemory>
    ensures { IfOk result (λ kept. kept.items ≡ filter (is_of_other_register register) pairs.now) }
{
    let mut kept = Vec::new(alloc);
    for pair in pairs {
        if pair.0 != register {
            kept.push(*pair)?;
        }
    }
    Ok(kept)
}

/// The pairs of other cells.
fn without_cell(alloc: Global, pairs: &[(u32, u32)], cell: u32) -> Result<Vec<(u32, u32)>, NoMemory>
    ensures { IfOk result (λ kept. kept.items ≡ filter (is_of_other_cell cell) pairs.now) }
{
    let mut kept = Vec::new(alloc);
    for pair in pairs {
        if pair.1 != cell {
            kept.push(*pair)?;
        }
    }
    Ok(kept)
}

/// Whether a pair comes before another one, by the register and then by the cell.
fn is_before(a: (u32, u32), b: (u32, u32)) -> bool
    ensures { result ≡ comes_before a b }
{
    a.0 < b.0 || (a.0 == b.0 && a.1 < b.1)
}

/// Puts those of some pairs that come before another one.
fn put_before(
    all: &mut Vec<(u32, u32)>,
    pairs: &[(u32, u32)],
    pair: (u32, u32),
) -> Result<(), NoMemory>
    ensures { OnOk result (all.new.items ≡ all.old.items ++ filter (λ q. comes_before q pair) pairs.now) }
{
    for other in pairs {
        if is_before(*other, pair) {
            all.push(*other)?;
        }
    }
    Ok(())
}

/// Puts those of some pairs that come behind another one.
fn put_behind(
    all: &mut Vec<(u32, u32)>,
    pairs: &[(u32, u32)],
    pair: (u32, u32),
) -> Result<(), NoMemory>
    ensures { OnOk result (all.new.items ≡ all.old.items ++ filter (comes_before pair) pairs.now) }
{
    for other in pairs {
        if is_before(pair, *other) {
            all.push(*other)?;
        }
    }
    Ok(())
}

/// A register equals a tracked cell, if this is one.
pub(crate) fn add_pair<I: IntDomain>(
    alloc: Global,
    fact: &mut PointFact<I>,
    register: u32,
    cell: Option<u32>,
) -> Result<(), NoMemory>
    ensures tells { OnOk result ((flow : Flowing I) → Tells fact.old flow → Tells fact.new (with_pair register cell flow)) }
    ensures kept { OnOk result ((registers cells : ℕ) → register < registers → IfSome cell (λ j. j < cells) → KeepsShape registers cells fact.old fact.new) }
{
    match cell {
        None => Ok(()),
        Some(cell) => put_pair(alloc, fact, register, cell),
    }
}

/// A register equals a tracked cell.
fn put_pair<I: IntDomain>(
    alloc: Global,
    fact: &mut PointFact<I>,
    register: u32,
    cell: u32,
) -> Result<(), NoMemory>
    ensures tells { OnOk result ((flow : Flowing I) → Tells fact.old flow → Tells fact.new (with_pair register (Some cell) flow)) }
    ensures kept { OnOk result ((registers cells : ℕ) → register < registers → cell < cells → KeepsShape registers cells fact.old fact.new) }
{
    let mut same = Vec::new(alloc);
    put_before(&mut same, fact.same.all(), (register, cell))?;
    same.push((register, cell))?;
    put_behind(&mut same, fact.same.all(), (register, cell))?;
    fact.same = List::of(same);
    Ok(())
}

/// Writes an element of a list.
fn put<T: Drop>(alloc: Global, list: &mut List<T>, at: usize, value: T)
    requires { at < length list.old }
    ensures { list.new ≡ slice_set list.old at value }
{
    let mut items = mem::replace(list, List::of(Vec::new(alloc))).into_vec();
    items[at] = value;
    *list = List::of(items);
}

/// A register gets another set, and equals no cell.
pub(crate) fn set_local<I: IntDomain>(
    alloc: Global,
    fact: &mut PointFact<I>,
    register: u32,
    set: Abs<I>,
) -> Result<(), NoMemory>
    requires { register < length fact.old.locals }
    ensures tells { OnOk result ((flow : Flowing I) → Tells fact.old flow → Tells fact.new (with_local register set flow)) }
    ensures kept { OnOk result ((registers cells : ℕ) → KeepsShape registers cells fact.old fact.new) }
{
    let local = Shared::new(alloc, set)?;
    let same = without_register(alloc, fact.same.all(), register)?;
    fact.same = List::of(same);
    put(alloc, &mut fact.locals, register as usize, local);
    Ok(())
}

/// The flag may be so.
pub(crate) fn set_flags<I: IntDomain>(fact: &mut PointFact<I>, off: bool, on: bool)
    ensures tells { (flow : Flowing I) → Tells fact.old flow → Tells fact.new (with_flags off on flow) }
    ensures kept { (registers cells : ℕ) → KeepsShape registers cells fact.old fact.new }
{
    fact.off = off;
    fact.on = on;
}

/// A row with another set at a place. The other sets stay shared.
fn with_set<I: IntDomain>(
    alloc: Global,
    row: &Row<I>,
    at: usize,
    set: Abs<I>,
) -> Result<Row<I>, NoMemory>
    requires { at < length row.now.cells }
    ensures { IfOk result (λ made. made.cells ≡ slice_set row.now.cells at set) }
{
    let cell = Shared::new(alloc, set)?;
    let mut cells = List::of(share_all(alloc, row.cells.all())?);
    put(alloc, &mut cells, at, cell);
    Ok(Row { cells })
}

/// The row of a tracked cell.
fn row_of<I>(fact: &PointFact<I>, cell: u32) -> &Row<I>
    requires { is_some (cell_of fact.now cell) ≡ true }
    ensures { slice_get fact.now.rows (cell / row_length) ≡ Some result.now }
{
    match at(fact.rows.all(), cell as usize / ROW_LENGTH) {
        None => unreachable!(),
        Some(row) => row.get(),
    }
}

/// A tracked cell, if this is one, gets another set, and equals no register. The other rows stay shared.
pub(crate) fn set_cell<I: IntDomain>(
    alloc: Global,
    fact: &mut PointFact<I>,
    cell: Option<u32>,
    set: Abs<I>,
) -> Result<(), NoMemory>
    requires { IfSome cell (λ j. is_some (cell_of fact.old j) ≡ true) }
    ensures tells { OnOk result ((flow : Flowing I) → Tells fact.old flow → Tells fact.new (with_cell cell set flow)) }
    ensures kept { OnOk result ((registers cells : ℕ) → KeepsShape registers cells fact.old fact.new) }
{
    match cell {
        None => Ok(()),
        Some(cell) => put_cell(alloc, fact, cell, set),
    }
}

/// A tracked cell gets another set, and equals no register.
fn put_cell<I: IntDomain>(
    alloc: Global,
    fact: &mut PointFact<I>,
    cell: u32,
    set: Abs<I>,
) -> Result<(), NoMemory>
    requires { is_some (cell_of fact.old cell) ≡ true }
    ensures tells { OnOk result ((flow : Flowing I) → Tells fact.old flow → Tells fact.new (with_cell (Some cell) set flow)) }
    ensures kept { OnOk result ((registers cells : ℕ) → KeepsShape registers cells fact.old fact.new) }
{
    let made = with_set(alloc, row_of(fact, cell), cell as usize % ROW_LENGTH, set)?;
    let row = Shared::new(alloc, made)?;
    let same = without_cell(alloc, fact.same.all(), cell)?;
    fact.same = List::of(same);
    put(alloc, &mut fact.rows, cell as usize / ROW_LENGTH, row);
    Ok(())
}
