//! The command.

ghost use Rattle.std.specs.Prelude.{◌≡◌, ◌≢◌, ◌≤◌, ◌<◌, ◌^◌, ℕ, List as ListOf, false, true, IsTrue, length, codes, IfOk, IfErr};
ghost use Rattle.cc_edge.specs.Faults.{Rose};
ghost use Rattle.cc_edge.specs.Files.{KeepsFiles};
ghost use Rattle.cc_simulation.specs.Asked.{asked_of, IsUntold};
ghost use Rattle.cc_simulation.specs.Ends.{RunEnds, is_run_refusal};
ghost use Rattle.cc_simulation.specs.Traces.{IsAsked, Says, SaysFront};
ghost use Rattle.cc_status.specs.Statuses.{may_write};
ghost use Rattle.cc_status.specs.declared.status.Status.TheVariants as status;
ghost use Rattle.cc_status.specs.declared.status.What.TheVariants as what;

use crate::material::read_material;
use crate::sources::trace_of_sources;
use cc_edge::{Sink, Store, say_whole};
use cc_status::{Status, What, output_name};
use std::alloc::Global;

/// The most steps of a run.
const STEP_LIMIT: u32 = 1_000_000;

/// What a simulation is asked for.
#[derive(Clone, Copy)]
pub struct Simulation<'w> {
    /// The file of the profile, where it is not the default.
    pub profile: Option<&'w str>,
    pub inputs: &'w str,
    pub arrivals: &'w str,
    /// How many steps are made at the most; the entry of a handler is one.
    pub steps: u32,
    pub sources: &'w [String],
}

/// The trace that is asked for.
fn trace_asked<F: Store>(
    alloc: Global,
    asked: &Simulation<'_>,
    store: &mut F,
) -> Result<Vec<u8>, Status>
    requires steps { asked.now.steps ≤ 1000000 }
    requires few { length asked.now.sources.now < 2 ^ 32 }
    ensures told { F.told store.new ≡ F.told store.old }
    ensures later { F.faults store.old ≤ F.faults store.new }
    ensures stay { IsTrue (F.told store.old) → KeepsFiles (F.files store.old) (F.files store.new) }
    ensures asked { IfOk result (λ text. IsTrue (F.told store.old) → IsAsked (F.files store.old) (asked_of asked.now) text.items) }
    ensures ends { IfErr result (λ s. s ≢ status.NoMemory → IsTrue (F.told store.old) → RunEnds (F.files store.old) (Rose (F.faults store.old) (F.faults store.new)) (asked_of asked.now) s) }
    ensures refusal { IfErr result (λ s. is_run_refusal s ≡ true) }
    ensures untold { IfErr result (λ s. F.told store.old ≡ false → IsUntold (asked_of asked.now) (Rose (F.faults store.old) (F.faults store.new)) (F.taken store.old) (F.taken store.new) s) }
{
    let material = read_material(alloc, store, asked)?;
    trace_of_sources(alloc, asked.sources, &material, asked.steps)
}

/// Reads the profile, the inputs, the arrivals and the sources, runs their program, and says its trace. Nothing is written to
/// the store, and nothing is said before the trace is whole.
#[tactic(auto, using(crate::proofs::RunLaws::of_runs))]
pub fn simulate<F: Store, O: Sink>(
    alloc: Global,
    asked: &Simulation<'_>,
    store: &mut F,
    sink: &mut O,
) -> Status
    requires few { length asked.now.sources.now < 2 ^ 32 }
    ensures told { F.told store.new ≡ F.told store.old }
    ensures later_faults { F.faults store.old ≤ F.faults store.new }
    ensures unchanged { IsTrue (F.told store.old) → KeepsFiles (F.files store.old) (F.files store.new) }
    ensures told_sink { O.told sink.new ≡ O.told sink.old }
    ensures later_sink { O.faults sink.old ≤ O.faults sink.new }

    // What is said is the trace of the program that the sources are; after a fault of the sink, its first bytes.
    ensures said { result ≡ status.Done → IsTrue (F.told store.old) → IsTrue (O.told sink.old) → Says (asked_of asked.now) (F.files store.old) (O.said sink.old) (O.said sink.new) }
    ensures write_fault { (name : ListOf ℕ) → result ≡ status.WriteFault name → (name ≡ codes "-") × Rose (O.faults sink.old) (O.faults sink.new)
        × (IsTrue (F.told store.old) → IsTrue (O.told sink.old) → SaysFront (asked_of asked.now) (F.files store.old) (O.said sink.old) (O.said sink.new)) }

    // Any other answer comes before anything is said, and it has its cause, the first in the order in which they are looked
    // for. Want of memory is an answer of its own.
    ensures not_begun { may_write result ≡ false → O.said sink.new ≡ O.said sink.old }
    ensures steps { 1000000 < asked.now.steps → result ≡ status.Limit what.Steps asked.now.steps }
    ensures ends { may_write result ≡ false → result ≢ status.NoMemory → IsTrue (F.told store.old) → RunEnds (F.files store.old) (Rose (F.faults store.old) (F.faults store.new)) (asked_of asked.now) result }
    ensures refusal { may_write result ≡ false → asked.now.steps ≤ 1000000 → is_run_refusal result ≡ true }

    // Over a store that does not tell its files, a fault names one that is read, and it comes where the store's faults rose,
    // or where more bytes were taken than a file of its kind may have.
    ensures untold { F.told store.old ≡ false → IsUntold (asked_of asked.now) (Rose (F.faults store.old) (F.faults store.new)) (F.taken store.old) (F.taken store.new) result }
{
    if asked.steps > STEP_LIMIT {
        return Status::Limit(What::Steps, u64::from(asked.steps));
    }
    let Ok(name) = output_name(alloc) else {
        return Status::NoMemory;
    };
    match trace_asked(alloc, asked, store) {
        Err(status) => status,
        Ok(text) => match say_whole(sink, &text) {
            Ok(()) => Status::Done,
            Err(_) => Status::WriteFault(name),
        },
    }
}
