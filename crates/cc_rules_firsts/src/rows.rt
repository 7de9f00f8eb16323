//! Tracked cells with their first values, in rows.

ghost use Rattle.std.specs.Prelude.{◌≡◌, ◌<◌, ◌≤◌, ◌+◌, ◌*◌, ℕ, length, Some, IfOk};
ghost use Rattle.std.specs.Option.{option_copied};
ghost use Rattle.cc_rules_asked.specs.CcCells.Cells.{scalar_in};
ghost use Rattle.cc_program.specs.declared.program.Program.{Program};
ghost use Rattle.cc_program.specs.declared.value.Value.{Value as ValueOf};
ghost use Rattle.cc_rules_firsts.specs.Firsts.{MayStand};
ghost use Rattle.cc_rules_firsts.specs.Rows.{HaveFirsts, IsFirstOf, IsRowSize, IsRowFrom, AreFirstRows};
ghost use Rattle.cc_rules_grow.specs.CcState.Shape.{AreRows};
ghost use Rattle.cc_rules_asked.specs.CcStateOperators.Domains.{domain};

use crate::sets::one_value;
use cc_program::Value;
use cc_program::num::{List, NoMemory, at};
use cc_rules_asked::lattice::IntDomain;
use cc_rules_asked::places::Abs;
use cc_rules_asked::state_facts::{Row, Shared};
use std::alloc::Global;

/// How many cells a row has, where it is not the last.
const ROW_LENGTH: usize = 16;

/// The first value of an object's first scalar.
fn first_scalar(values: &[List<Value>], object: u32) -> Option<&Value>
    ensures { option_copied result ≡ scalar_in values.now object 0 }
{
    let scalars = at(values, object as usize)?;
    at(scalars.all(), 0)
}

/// The set of an object's first value.
fn first_of<I: IntDomain>(
    alloc: Global,
    values: &[List<Value>],
    object: u32,
) -> Result<Abs<I>, NoMemory>
    requires { (v : ValueOf) × (scalar_in values.now object 0 ≡ Some v) × MayStand v }
    ensures { IfOk result (λ set. IsFirstOf I.Has I.IsBelow values.now object set) }
{
    match first_scalar(values, object) {
        None => unreachable!(),
        Some(value) => one_value(alloc, value),
    }
}

/// Behind the last cell of a row that begins at one of so many cells.
fn end_of(first: usize, count: usize) -> usize
    requires { first ≤ count }
    ensures within { result ≤ count }
    ensures behind { first ≤ result }
    ensures short { result ≤ first + 16 }
    ensures full { result < first + 16 → result ≡ count }
{
    if count - first < ROW_LENGTH {
        count
    } else {
        first + ROW_LENGTH
    }
}

/// The sets of the cells of a row.
fn sets_from<I: IntDomain>(
    alloc: Global,
    values: &[List<Value>],
    objects: &[u32],
    first: usize,
) -> Result<Vec<Shared<Abs<I>>>, NoMemory>
    requires values { HaveFirsts values.now objects.now }
    requires within { first ≤ length objects.now }
    ensures cells { IfOk result (λ sets. IsRowFrom I.Has I.IsBelow values.now objects.now first sets.items) }
    ensures size { IfOk result (λ sets. IsRowSize (length objects.now) first (length sets.items)) }
{
    let mut sets = Vec::new(alloc);
    let end = end_of(first, objects.len());
    for cell in first..end {
        let set = first_of(alloc, values, objects[cell])?;
        let shared = Shared::new(alloc, set)?;
        sets.push(shared)?;
    }
    Ok(sets)
}

/// How many rows so many cells have.
fn row_count(cells: usize) -> usize
    ensures low { (n : ℕ) → n < result → n * 16 < cells }
    ensures high { cells ≤ result * 16 }
{
    if cells % ROW_LENGTH == 0 {
        cells / ROW_LENGTH
    } else {
        cells / ROW_LENGTH + 1
    }
}

/// The rows of the tracked cells, which are these objects, each with its first value.
pub(crate) fn first_rows<I: IntDomain>(
    alloc: Global,
    values: &[List<Value>],
    objects: &[u32],
) -> Result<Vec<Shared<Row<I>>>, NoMemory>
    requires { HaveFirsts values.now objects.now }
    ensures firsts { IfOk result (λ rows. AreFirstRows I.Has I.IsBelow values.now objects.now rows.items) }
    ensures laid_out { IfOk result (λ rows. (p : Program) → AreRows (domain I.Has I.IsBelow I.OpGives I.OpOneGives I.ToGives I.KeepGives I.members_of) p (length objects.now) rows.items) }
{
    let mut rows = Vec::new(alloc);
    let count = row_count(objects.len());
    for row in 0..count {
        let sets = sets_from(alloc, values, objects, row * ROW_LENGTH)?;
        let made = Row {
            cells: List::of(sets),
        };
        let shared = Shared::new(alloc, made)?;
        rows.push(shared)?;
    }
    Ok(rows)
}
