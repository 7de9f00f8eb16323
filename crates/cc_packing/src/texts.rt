//! The texts that are written of sources.

ghost use Rattle.std.specs.Prelude.{◌≡◌, ◌≢◌, ◌<◌, ◌^◌, true, length, map, sum, IfOk, IfErr};
ghost use Rattle.cc_files.specs.Unread.{names_of, texts_of as bytes_of};
ghost use Rattle.cc_material.specs.Material.{TellsFile};
ghost use Rattle.cc_packing.specs.Ends.{TextsEnd, is_pack_refusal};
ghost use Rattle.cc_packing.specs.Headline.{AreMade};
ghost use Rattle.cc_status.specs.declared.status.Status.TheVariants as status;

use crate::outputs::Texts;
use crate::program::texts_of;
use cc_cost::Profile;
use cc_material::program_of;
use cc_read_accessed::read_laws as access_laws;
use cc_read_folded::read_laws as folding_laws;
use cc_status::Status;
use std::alloc::Global;

/// The texts that are written of the program that sources are, or why none are.
pub fn texts_of_sources(
    alloc: Global,
    names: &[String],
    profile: &Profile,
    sources: &[Vec<u8>],
) -> Result<Texts, Status>
    requires few { length sources.now < 2 ^ 32 }
    requires small { sum (map length (bytes_of sources.now)) < 2 ^ 32 }
    ensures made { IfOk result (λ t. AreMade profile.now (bytes_of sources.now) t.out.items t.table.items) }
    ensures ends { IfErr result (λ s. s ≢ status.NoMemory → TextsEnd (names_of names.now) profile.now (bytes_of sources.now) s) }
    ensures refusal { IfErr result (λ s. is_pack_refusal s ≡ true) }
    ensures no_file { IfErr result (λ s. TellsFile (λ _. ⊥) (λ _. ⊥) s) }
{
    folding_laws();
    access_laws();
    let p = program_of(alloc, names, profile, sources)?;
    texts_of(alloc, p)
}
