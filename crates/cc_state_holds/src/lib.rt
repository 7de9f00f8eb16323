//! Whether the state of a machine lies in facts about all runs of its program.
#![tactic(auto)]

mod activations;
mod basis;
mod functions;
mod law;
mod lies;
mod locals;
mod memory;
mod objects;
mod operands;
mod pending;
mod points;
mod registers;
mod sets;

pub use law::parts;
pub use lies::holds;
