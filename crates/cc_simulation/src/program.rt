//! The trace of one program.

ghost use Rattle.std.specs.Prelude.{◌≡◌, ◌≢◌, true, IfOk, IfErr};
ghost use Rattle.cc_material.specs.Material.{TellsFile};
ghost use Rattle.cc_run.specs.Driven.{turns_ascend};
ghost use Rattle.cc_simulation.specs.Ends.{ProgramEnds, RowsEnd, TellsInput, TellsArrival, for_inputs as inputs_status, for_arrivals as arrivals_status, is_run_refusal};
ghost use Rattle.cc_simulation.specs.Traces.{AreInputs, AreArrivals, IsRunnable, IsTrace};
ghost use Rattle.cc_status.specs.declared.status.Status.TheVariants as status;
ghost use Rattle.cc_states.specs.CcSyntax.Sound.{IsSound};

use cc_material::above;
use cc_program::Program;
use cc_run::{RowFault, drive, read_arrivals, read_inputs};
use cc_status::Status;
use std::alloc::Global;

/// A row of the inputs gives none.
fn for_inputs(fault: RowFault) -> Status
    ensures { result ≡ inputs_status fault }
{
    match fault {
        RowFault::Row(row) => Status::Inputs(row),
        RowFault::NoMemory => Status::NoMemory,
    }
}

/// A row of the arrivals gives none.
fn for_arrivals(fault: RowFault) -> Status
    ensures { result ≡ arrivals_status fault }
{
    match fault {
        RowFault::Row(row) => Status::Arrivals(row),
        RowFault::NoMemory => Status::NoMemory,
    }
}

/// The text of the trace of a sound program over rows of inputs and of arrivals.
#[tactic(auto, using(crate::proofs::ProgramTraces::of_rows))]
fn trace_over(
    alloc: Global,
    p: &Program,
    inputs: &[u8],
    arrivals: &[u8],
    steps: u32,
) -> Result<Vec<u8>, Status>
    requires { IsSound p.now }
    ensures trace { IfOk result (λ text. IsTrace p.now inputs.now arrivals.now steps text.items) }
    ensures ends { IfErr result (λ s. s ≢ status.NoMemory → RowsEnd p.now inputs.now arrivals.now s) }
    ensures refusal { IfErr result (λ s. is_run_refusal s ≡ true) }
    ensures no_file { IfErr result (λ s. TellsFile (λ _. ⊥) (λ _. ⊥) s) }
{
    let numbers = match read_inputs(alloc, inputs) {
        Ok(numbers) => numbers,
        Err(fault) => return Err(for_inputs(fault)),
    };
    let turns = match read_arrivals(alloc, p, arrivals) {
        Ok(turns) => turns,
        Err(fault) => return Err(for_arrivals(fault)),
    };
    Ok(drive(alloc, p, numbers, turns.as_slice(), steps)?)
}

/// The text of the trace of a sound program, or why there is none.
#[tactic(auto, using(crate::proofs::ProgramTraces::of_programs))]
pub fn trace_of(
    alloc: Global,
    p: &Program,
    inputs: &[u8],
    arrivals: &[u8],
    steps: u32,
) -> Result<Vec<u8>, Status>
    requires { IsSound p.now }
    ensures runnable { IfOk result (λ _. IsRunnable p.now) }
    ensures trace { IfOk result (λ text. IsTrace p.now inputs.now arrivals.now steps text.items) }
    ensures ends { IfErr result (λ s. s ≢ status.NoMemory → ProgramEnds inputs.now arrivals.now p.now s) }
    ensures refusal { IfErr result (λ s. is_run_refusal s ≡ true) }
    ensures no_file { IfErr result (λ s. TellsFile (λ _. ⊥) (λ _. ⊥) s) }
{
    match above(p) {
        Some(limit) => Err(Status::Limit(limit.0, limit.1)),
        None => trace_over(alloc, p, inputs, arrivals, steps),
    }
}
