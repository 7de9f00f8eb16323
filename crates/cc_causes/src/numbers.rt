//! The numbers of structures in the program.

ghost use Rattle.std.specs.Prelude.{◌≡◌};
ghost use Rattle.cc_structures.specs.Structures.{numbers_of};

use cc_program::num::{List, at};

/// The numbers of the structures of a source.
pub fn structures_in(structures: &[List<u32>], text: usize) -> &[u32]
    ensures { result.now ≡ numbers_of structures.now text }
{
    match at(structures, text) {
        None => &[],
        Some(numbers) => numbers.all(),
    }
}
