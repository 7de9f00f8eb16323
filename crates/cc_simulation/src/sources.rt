//! The trace of the program that sources are.

ghost use Rattle.std.specs.Prelude.{◌≡◌, ◌≢◌, ◌<◌, ◌^◌, true, length, map, sum, IfOk, IfErr};
ghost use Rattle.cc_files.specs.Unread.{names_of, texts_of};
ghost use Rattle.cc_material.specs.Material.{TellsFile};
ghost use Rattle.cc_simulation.specs.Ends.{ProgramEnds, SourcesEnd, is_run_refusal};
ghost use Rattle.cc_simulation.specs.Traces.{IsMade, IsRunnable, IsTrace};
ghost use Rattle.cc_status.specs.declared.status.Status.TheVariants as status;
ghost use Rattle.cc_states.specs.CcSyntax.Sound.{IsSound};

use crate::material::Material;
use crate::program::trace_of;
use cc_discard::discard_program;
use cc_material::program_of;
use cc_program::Program;
use cc_status::Status;
use std::alloc::Global;

/// The text of the trace of a sound program, or why there is none; the program is let go.
fn trace_of_program(
    alloc: Global,
    material: &Material,
    p: Program,
    steps: u32,
) -> Result<Vec<u8>, Status>
    requires { IsSound p }
    ensures runnable { IfOk result (λ _. IsRunnable p) }
    ensures trace { IfOk result (λ text. IsTrace p material.now.inputs.items material.now.arrivals.items steps text.items) }
    ensures ends { IfErr result (λ s. s ≢ status.NoMemory → ProgramEnds material.now.inputs.items material.now.arrivals.items p s) }
    ensures refusal { IfErr result (λ s. is_run_refusal s ≡ true) }
    ensures no_file { IfErr result (λ s. TellsFile (λ _. ⊥) (λ _. ⊥) s) }
{
    let text = trace_of(
        alloc,
        &p,
        material.inputs.as_slice(),
        material.arrivals.as_slice(),
        steps,
    );
    discard_program(p);
    text
}

/// The text of the trace of the program that the sources are, or why there is none.
pub fn trace_of_sources(
    alloc: Global,
    names: &[String],
    material: &Material,
    steps: u32,
) -> Result<Vec<u8>, Status>
    requires few { length material.now.sources.items < 2 ^ 32 }
    requires small { sum (map length (texts_of material.now.sources.items)) < 2 ^ 32 }
    ensures made { IfOk result (λ text. IsMade material.now.profile (texts_of material.now.sources.items) material.now.inputs.items material.now.arrivals.items steps text.items) }
    ensures ends { IfErr result (λ s. s ≢ status.NoMemory →
        SourcesEnd (names_of names.now) material.now.profile (texts_of material.now.sources.items) material.now.inputs.items material.now.arrivals.items s) }
    ensures refusal { IfErr result (λ s. is_run_refusal s ≡ true) }
    ensures no_file { IfErr result (λ s. TellsFile (λ _. ⊥) (λ _. ⊥) s) }
{
    let p = program_of(alloc, names, &material.profile, material.sources.as_slice())?;
    trace_of_program(alloc, material, p, steps)
}
