//! The profile of a command.

ghost use Rattle.std.specs.Prelude.{◌≡◌, ◌≢◌, ◌≤◌, ◌<◌, ◌^◌, ⊤, ℕ, false, true, IsTrue, Some, None, length, option_map, IfOk, IfErr};
ghost use Rattle.cc_cost.specs.Given.{Gives};
ghost use Rattle.cc_cost.specs.Rules.{first_fault};
ghost use Rattle.cc_edge.specs.Faults.{Rose, raised};
ghost use Rattle.cc_edge.specs.Files.{KeepsFiles};
ghost use Rattle.cc_material.specs.Material.{IsProfile, IsWrongRow, ProfileEnds, TellsFile, is_refusal};
ghost use Rattle.cc_rows.specs.Rows.{rows_of};
ghost use Rattle.cc_status.specs.declared.status.Status.TheVariants as status;

use cc_cost::{Profile, default_profile, read_profile};
use cc_edge::Store;
use cc_files::read_file;
use cc_status::Status;
use std::alloc::Global;

/// The most bytes of a profile.
const PROFILE_LIMIT: u64 = 64 << 10;

/// The profile of a text.
#[tactic(auto, using(crate::proofs::Told::of_profiles))]
fn profile_in(alloc: Global, text: &[u8]) -> Result<Profile, Status>
    requires { length text.now < 2 ^ 32 }
    ensures valid { IfOk result (λ p. first_fault (rows_of text.now) ≡ None) }
    ensures profile { IfOk result (λ p. Gives (rows_of text.now) p) }
    ensures ends { IfErr result (λ s. s ≢ status.NoMemory → IsWrongRow (rows_of text.now) s) }
    ensures refusal { IfErr result (λ s. is_refusal s ≡ true) }
    ensures no_file { IfErr result (λ s. TellsFile (λ _. ⊥) (λ _. ⊥) s) }
{
    Ok(read_profile(alloc, text)?)
}

/// The profile of a file.
fn profile_from<F: Store>(alloc: Global, store: &mut F, name: &str) -> Result<Profile, Status>
    ensures told { F.told store.new ≡ F.told store.old }
    ensures later { F.faults store.old ≤ F.faults store.new }
    ensures stay { IsTrue (F.told store.old) → KeepsFiles (F.files store.old) (F.files store.new) }
    ensures read { IfOk result (λ p. IsTrue (F.told store.old) → IsProfile (F.files store.old) (Some name.now) p) }
    ensures ends { IfErr result (λ s. s ≢ status.NoMemory → IsTrue (F.told store.old) → ProfileEnds (F.files store.old) (Rose (F.faults store.old) (F.faults store.new)) (Some name.now) s) }
    ensures refusal { IfErr result (λ s. is_refusal s ≡ true) }
    ensures grown { IfOk result (λ _. F.told store.old ≡ false → F.taken store.old ≤ F.taken store.new) }
    ensures untold { IfErr result (λ s. F.told store.old ≡ false →
        TellsFile (λ file. (file ≡ name.now) × Rose (F.faults store.old) (F.faults store.new)) (λ file. (file ≡ name.now) × (F.taken store.new ≡ raised 65537 (F.taken store.old))) s) }
{
    let text = read_file(alloc, store, name, PROFILE_LIMIT)?;
    profile_in(alloc, text.as_slice())
}

/// The profile of a file, or the default where none is named.
#[tactic(auto, using(crate::proofs::Told::by_default))]
pub fn profile_of<F: Store>(
    alloc: Global,
    store: &mut F,
    name: Option<&str>,
) -> Result<Profile, Status>
    ensures told { F.told store.new ≡ F.told store.old }
    ensures later { F.faults store.old ≤ F.faults store.new }
    ensures refusal { IfErr result (λ s. is_refusal s ≡ true) }

    // Where the files are told:
    ensures stay { IsTrue (F.told store.old) → KeepsFiles (F.files store.old) (F.files store.new) }
    ensures read { IfOk result (λ p. IsTrue (F.told store.old) → IsProfile (F.files store.old) (option_map (λ n. n.now) name.entry) p) }
    ensures ends { IfErr result (λ s. s ≢ status.NoMemory → IsTrue (F.told store.old) → ProfileEnds (F.files store.old) (Rose (F.faults store.old) (F.faults store.new)) (option_map (λ n. n.now) name.entry) s) }

    // Where they are not, a profile that is too long has given one byte more than one may have.
    ensures grown { IfOk result (λ _. F.told store.old ≡ false → F.taken store.old ≤ F.taken store.new) }
    ensures untold { IfErr result (λ s. F.told store.old ≡ false →
        TellsFile (λ file. (option_map (λ n. n.now) name.entry ≡ Some file) × Rose (F.faults store.old) (F.faults store.new)) (λ file. (option_map (λ n. n.now) name.entry ≡ Some file) × (F.taken store.new ≡ raised 65537 (F.taken store.old))) s) }
{
    match name {
        None => Ok(default_profile(alloc)?),
        Some(name) => profile_from(alloc, store, name),
    }
}
