//! The scalars of objects and of locals, and how one is read and written. The position of one is counted up to
//! `usize::MAX`, where no list has a scalar.

ghost use Rattle.std.specs.Prelude.{◌≡◌, ℕ, slice_get, slice_set};
ghost use Rattle.std.specs.Option.{option_copied};
ghost use Rattle.cc_cells.specs.Cells.{cells_of, scalar_in, with_scalar};
ghost use Rattle.cc_cells.specs.Counts.{counted};

use cc_program::num::at;

#[tactic(auto, using(crate::proofs::CellLemmas::of_positions))]
fn read_at<T>(scalars: &[T], position: usize) -> Option<&T>
    ensures { (n : ℕ) → counted n ≡ position → option_copied result ≡ slice_get scalars.now n }
{
    if position < scalars.len() {
        Some(&scalars[position])
    } else {
        None
    }
}

/// The scalar at a position of an object, where there is one.
#[tactic(auto, using(crate::proofs::CellLemmas::of_cells))]
pub fn read_scalar<T>(cells: &[Vec<T>], object: u32, position: usize) -> Option<&T>
    ensures { (n : ℕ) → counted n ≡ position → option_copied result ≡ scalar_in (cells_of cells.now) object n }
{
    match at(cells, object as usize) {
        None => None,
        Some(scalars) => read_at(scalars, position),
    }
}

#[tactic(auto, using(crate::proofs::CellLemmas::of_positions))]
fn write_at<T: Drop>(scalars: &mut Vec<T>, position: usize, value: T)
    ensures { (n : ℕ) → counted n ≡ position → scalars.new.items ≡ slice_set scalars.old.items n value }
{
    if position < scalars.len() {
        scalars[position] = value;
    }
}

/// Sets the scalar at a position of an object, where there is one.
#[tactic(auto, using(crate::proofs::CellLemmas::of_cells))]
pub fn write_scalar<T: Drop>(cells: &mut [Vec<T>], object: u32, position: usize, value: T)
    ensures { (n : ℕ) → counted n ≡ position → cells_of cells.new ≡ with_scalar (cells_of cells.old) object n value }
{
    let object = object as usize;
    if object < cells.len() {
        write_at(&mut cells[object], position, value);
    }
}
