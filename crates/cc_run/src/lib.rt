//! Runs of programs: the files of a run, which are the inputs that devices give and the turns at which handlers arrive, and
//! the trace of the run.
#![tactic(auto)]

mod arrivals;
mod fault;
mod inputs;
mod runs;
mod trace;

pub use arrivals::read_arrivals;
pub use fault::RowFault;
pub use inputs::read_inputs;
pub use runs::drive;
