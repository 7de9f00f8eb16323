//! What a simulation reads.

ghost use Rattle.std.specs.Prelude.{◌≡◌, ◌≢◌, ◌≤◌, false, true, IsTrue, length, map, sum, IfOk, IfErr};
ghost use Rattle.cc_edge.specs.Faults.{Rose};
ghost use Rattle.cc_edge.specs.Files.{KeepsFiles};
ghost use Rattle.cc_files.specs.Unread.{texts_of};
ghost use Rattle.cc_material.specs.Material.{is_refusal};
ghost use Rattle.cc_simulation.specs.Asked.{asked_of, IsUntold};
ghost use Rattle.cc_simulation.specs.Ends.{FilesEnd};
ghost use Rattle.cc_simulation.specs.Traces.{AreRead};
ghost use Rattle.cc_status.specs.declared.status.Status.TheVariants as status;

use crate::simulation::Simulation;
use cc_cost::Profile;
use cc_edge::Store;
use cc_files::{read_file, read_sources};
use cc_material::profile_of;
use cc_status::Status;
use std::alloc::Global;

/// The most bytes of inputs, and of arrivals.
const ROWS_LIMIT: u64 = 8 << 20;

/// What a simulation reads: its profile, and the texts of its inputs, of its arrivals and of its sources.
#[derive(Drop)]
pub struct Material {
    pub profile: Profile,
    pub inputs: Vec<u8>,
    pub arrivals: Vec<u8>,
    pub sources: Vec<Vec<u8>>,
}

/// What a simulation reads, in the order of its words.
pub fn read_material<F: Store>(
    alloc: Global,
    store: &mut F,
    asked: &Simulation<'_>,
) -> Result<Material, Status>
    ensures told { F.told store.new ≡ F.told store.old }
    ensures later { F.faults store.old ≤ F.faults store.new }
    ensures count { IfOk result (λ m. length m.sources.items ≡ length asked.now.sources.now) }
    ensures few { IfOk result (λ m. sum (map length (texts_of m.sources.items)) ≤ 4194304) }
    ensures stay { IsTrue (F.told store.old) → KeepsFiles (F.files store.old) (F.files store.new) }
    ensures read { IfOk result (λ m. IsTrue (F.told store.old) → AreRead (F.files store.old) (asked_of asked.now) m.profile m.inputs.items m.arrivals.items (texts_of m.sources.items)) }
    ensures ends { IfErr result (λ s. s ≢ status.NoMemory → IsTrue (F.told store.old) → FilesEnd (F.files store.old) (Rose (F.faults store.old) (F.faults store.new)) (asked_of asked.now) s) }
    ensures refusal { IfErr result (λ s. is_refusal s ≡ true) }
    ensures untold { IfErr result (λ s. F.told store.old ≡ false → IsUntold (asked_of asked.now) (Rose (F.faults store.old) (F.faults store.new)) (F.taken store.old) (F.taken store.new) s) }
{
    let profile = profile_of(alloc, store, asked.profile)?;
    let inputs = read_file(alloc, store, asked.inputs, ROWS_LIMIT)?;
    let arrivals = read_file(alloc, store, asked.arrivals, ROWS_LIMIT)?;
    let sources = read_sources(alloc, store, asked.sources)?;
    Ok(Material {
        profile,
        inputs,
        arrivals,
        sources,
    })
}
