//! Simulation: the program that sources are runs over inputs and arrivals, and its trace is said.
#![tactic(auto)]

mod law;
mod material;
mod program;
mod simulation;
mod sources;

pub use law::laws;
pub use simulation::{Simulation, simulate};
