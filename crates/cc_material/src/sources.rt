//! The program that sources are.

ghost use Rattle.std.specs.Prelude.{◌≡◌, ◌≢◌, ◌<◌, ◌^◌, true, length, map, sum, IfOk, IfErr};
ghost use Rattle.cc_files.specs.Unread.{names_of, texts_of};
ghost use Rattle.cc_material.specs.Material.{TellsFile, is_refusal};
ghost use Rattle.cc_material.specs.Programs.{IsProgram, TellsRefusal};
ghost use Rattle.cc_status.specs.declared.status.Status.TheVariants as status;
ghost use Rattle.cc_type.specs.CcSyntax.Sound.{IsSound};

use crate::refusal::refused;
use cc_cost::Profile;
use cc_program::Program;
use cc_read::read;
use cc_status::Status;
use std::alloc::Global;

/// The program that sources of these names are, or why they are none. What is read is sound.
pub fn program_of(
    alloc: Global,
    names: &[String],
    profile: &Profile,
    sources: &[Vec<u8>],
) -> Result<Program, Status>
    requires few { length sources.now < 2 ^ 32 }
    requires small { sum (map length (texts_of sources.now)) < 2 ^ 32 }
    ensures program { IfOk result (λ p. IsProgram profile.now (texts_of sources.now) p) }
    ensures sound { IfOk result (λ p. IsSound p) }
    ensures refused { IfErr result (λ s. s ≢ status.NoMemory → TellsRefusal (names_of names.now) profile.now (texts_of sources.now) s) }
    ensures refusal { IfErr result (λ s. is_refusal s ≡ true) }
    ensures no_file { IfErr result (λ s. TellsFile (λ _. ⊥) (λ _. ⊥) s) }
{
    match read(alloc, sources, &profile.target, &profile.roles) {
        Ok(p) => Ok(p),
        Err(refusal) => Err(refused(alloc, names, refusal)),
    }
}
