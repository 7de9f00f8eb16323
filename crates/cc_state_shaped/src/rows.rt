//! Rows of so many tracked cells.

ghost use Rattle.std.specs.Prelude.{◌≡◌, ◌↔◌, IsTrue, sum_by};
ghost use Rattle.cc_state_shaped.specs.Parts.{cells_in, cell_count, IsFilled, AreFilled};

use cc_state_reads::state_facts::{Row, Shared};

/// How many tracked cells a row has, where it is not the last.
const ROW_LENGTH: usize = 16;

/// Whether rows have so many cells.
fn have_cells<I>(rows: &[Shared<Row<I>>], count: usize) -> bool
    ensures { IsTrue result ↔ sum_by cells_in rows.now ≡ count }
{
    let mut left = count;
    for row in rows {
        let length = row.get().cells.all().len();
        if left < length {
            return false;
        }
        left -= length;
    }
    left == 0
}

/// Whether a row is not empty, and is full where it is not the last.
fn is_filled<I>(row: &Row<I>, is_last: bool) -> bool
    ensures { IsTrue result ↔ IsFilled row.now is_last }
{
    let length = row.cells.all().len();
    0 < length && (is_last || length == ROW_LENGTH)
}

/// Whether no row is empty, and all but the last are full.
fn are_filled<I>(rows: &[Shared<Row<I>>]) -> bool
    ensures { IsTrue result ↔ AreFilled rows.now }
{
    for (number, row) in rows.iter().enumerate() {
        if !is_filled(row.get(), number + 1 == rows.len()) {
            return false;
        }
    }
    true
}

/// Whether rows have so many cells, none is empty, and all but the last are full.
pub(crate) fn are_rows<I>(rows: &[Shared<Row<I>>], count: usize) -> bool
    ensures { IsTrue result ↔ ((cell_count rows.now ≡ count) × AreFilled rows.now) }
{
    have_cells(rows, count) && are_filled(rows)
}
