//! How a command ends, the names that it tells, and its line.
#![tactic(auto)]

mod cause;
mod fault;
mod line;
mod names;
mod status;

pub use fault::for_refusal;
pub use line::explain;
pub use names::{name_at, output_name};
pub use status::{Status, What, number};
