//! The names that statuses have.

ghost use Rattle.std.specs.Prelude.{◌≡◌, [], codes, slice_index_or, IfOk};
ghost use Rattle.cc_files.specs.Unread.{names_of};

use cc_files::copy_name;
use cc_program::num::{List, Name, NoMemory, at};
use std::alloc::Global;

/// The name of the source of a number; nothing where there is none.
#[tactic(auto, using(crate::proofs::NameLaws::name_none))]
pub fn name_at(alloc: Global, names: &[String], file: u32) -> Result<Name, NoMemory>
    ensures { IfOk result (λ name. name ≡ slice_index_or (names_of names.now) file []) }
{
    match at(names, file as usize) {
        Some(name) => copy_name(alloc, name.as_str()),
        None => Ok(List::of(Vec::new(alloc))),
    }
}

/// The name of the standard output.
pub fn output_name(alloc: Global) -> Result<Name, NoMemory>
    ensures { IfOk result (λ name. name ≡ codes "-") }
{
    copy_name(alloc, "-")
}
