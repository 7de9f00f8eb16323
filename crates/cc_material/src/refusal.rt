//! The status of sources that are refused.

ghost use Rattle.std.specs.Prelude.{◌≡◌, ◌≢◌, [], true, slice_index_or};
ghost use Rattle.cc_files.specs.Unread.{names_of};
ghost use Rattle.cc_material.specs.Material.{TellsFile, is_refusal};
ghost use Rattle.cc_read.specs.declared.refusal.ReadRefusal.TheVariants.{NoMemory as NoRoom};
ghost use Rattle.cc_status.specs.declared.status.Status.TheVariants as status;

use cc_program::num::NoMemory;
use cc_read::Refusal;
use cc_status::{Status, for_refusal, name_at};
use std::alloc::Global;

/// The status where sources are refused, with the name of the one at fault.
#[tactic(auto, using(crate::proofs::Told::of_refusals))]
pub fn refused(alloc: Global, names: &[String], refusal: Refusal) -> Status
    ensures why { result ≢ status.NoMemory → refusal.why ≢ NoRoom }
    ensures refused { result ≢ status.NoMemory → result ≡ status.Refused (slice_index_or (names_of names.now) refusal.file []) refusal.why }
    ensures refusal { is_refusal result ≡ true }
    ensures no_file { TellsFile (λ _. ⊥) (λ _. ⊥) result }
{
    match name_at(alloc, names, refusal.file) {
        Ok(name) => for_refusal(name, refusal.why),
        Err(NoMemory) => Status::NoMemory,
    }
}
