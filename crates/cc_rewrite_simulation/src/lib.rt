//! How a program whose static scalars stand in words is shown to do what another does: laws of whole runs, from the step of two activations that
//! stand in front of the same statements.
#![tactic(auto)]

mod law;

pub use law::{CodedSimulation, answers_by_coding, follows_by_coding};
