//! New names with numbers.

ghost use Rattle.std.specs.Prelude.{◌≡◌, IfOk, replicate};
ghost use Rattle.cc_names.specs.Names.{Numbered};
ghost use Rattle.cc_names.specs.View.{wishes_of};
ghost use Rattle.cc_rewrite_names.specs.NewNames.{new_names as new_names_of, table_names as table_names_of, word_names as word_names_of};

use crate::reservations::reserved;
use cc_names::{Names, Wish, names_for};
use cc_program::Program;
use cc_program::num::{Name, NoMemory};
use std::alloc::Global;

/// So many wishes for a name with a number.
fn wishes<'t>(alloc: Global, base: &'t [u8], count: usize) -> Result<Vec<Wish<'t>>, NoMemory>
    ensures { IfOk result (λ wishes. wishes_of wishes.items ≡ replicate count (Numbered base.now)) }
{
    let mut wishes = Vec::new(alloc);
    for _wish in 0..count {
        wishes.push(Wish::Numbered(base))?;
    }
    Ok(wishes)
}

/// So many of the names `base__1`, `base__2` and so on, without those that a program has. The only error is want of memory.
pub fn new_names(
    alloc: Global,
    p: &Program,
    base: &[u8],
    count: usize,
) -> Result<Vec<Name>, NoMemory>
    ensures { IfOk result (λ names. names.items ≡ new_names_of p.now base.now count) }
{
    let wishes = wishes(alloc, base, count)?;
    let mut taken = reserved(alloc, p)?;
    let mut space = Names::new(alloc);
    names_for(alloc, &mut taken, &mut space, &wishes)
}

/// The names of so many words that are added to a program. The only error is want of memory.
pub fn word_names(alloc: Global, p: &Program, count: usize) -> Result<Vec<Name>, NoMemory>
    ensures { IfOk result (λ names. names.items ≡ word_names_of p.now count) }
{
    new_names(alloc, p, b"w", count)
}

/// The names of so many tables that are added to a program. The only error is want of memory.
pub fn table_names(alloc: Global, p: &Program, count: usize) -> Result<Vec<Name>, NoMemory>
    ensures { IfOk result (λ names. names.items ≡ table_names_of p.now count) }
{
    new_names(alloc, p, b"v", count)
}
