//! Rows of sets, which points share.

ghost use Rattle.std.specs.Prelude.{◌≡◌, ◌↔◌, IsTrue, IfOk};
ghost use Rattle.std.specs.List.{AllZip};
ghost use Rattle.cc_lattice.specs.Tables.{AreJoins};
ghost use Rattle.cc_state_facts.specs.Orders.{AreRowsAlike, AreRowsBelow, IsRowJoin};

use crate::facts::Row;
use crate::shared_sets::{are_shared_below, shared_joins};
use cc_lattice::IntDomain;
use cc_program::num::{List, NoMemory};
use cc_state_shared::Shared;
use std::alloc::Global;

/// Whether each set of a row is below the other row's.
fn is_row_below<I: IntDomain>(row: &Shared<Row<I>>, other: &Shared<Row<I>>) -> bool
    requires { AreRowsAlike row.now other.now }
    ensures { IsTrue result ↔ AreRowsBelow I.IsBelow row.now other.now }
{
    are_shared_below(row.get().cells.all(), other.get().cells.all())
}

/// Whether each row is below the other one at its place.
pub(crate) fn are_rows_below<I: IntDomain>(
    rows: &[Shared<Row<I>>],
    others: &[Shared<Row<I>>],
) -> bool
    requires { AllZip AreRowsAlike rows.now others.now }
    ensures { IsTrue result ↔ AllZip (AreRowsBelow I.IsBelow) rows.now others.now }
{
    for (at, row) in rows.iter().enumerate() {
        if !is_row_below(row, &others[at]) {
            return false;
        }
    }
    true
}

/// The row with what another one has. It stays shared where no set rises.
fn joined_row<I: IntDomain>(
    alloc: Global,
    row: &Shared<Row<I>>,
    other: &Shared<Row<I>>,
) -> Result<Shared<Row<I>>, NoMemory>
    requires { AreRowsAlike row.now other.now }
    ensures { IfOk result (λ both. IsRowJoin I.IsBelow row.now other.now both) }
{
    if is_row_below(other, row) {
        return row.share();
    }
    if is_row_below(row, other) {
        return other.share();
    }
    let both = shared_joins(alloc, row.get().cells.all(), other.get().cells.all())?;
    Shared::new(
        alloc,
        Row {
            cells: List::of(both),
        },
    )
}

/// Each row with what the other one at its place has.
pub(crate) fn joined_rows<I: IntDomain>(
    alloc: Global,
    rows: &[Shared<Row<I>>],
    others: &[Shared<Row<I>>],
) -> Result<Vec<Shared<Row<I>>>, NoMemory>
    requires { AllZip AreRowsAlike rows.now others.now }
    ensures { IfOk result (λ both. AreJoins (IsRowJoin I.IsBelow) rows.now others.now both.items) }
{
    let mut both = Vec::new(alloc);
    for (at, row) in rows.iter().enumerate() {
        both.push(joined_row(alloc, row, &others[at])?)?;
    }
    Ok(both)
}
