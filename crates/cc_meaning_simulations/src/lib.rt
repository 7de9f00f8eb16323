//! How a program that does what another does is shown to do so, step by step: simulations of whole runs from single steps
//! of their running activations, and those from steps of their control and their locals.
#![tactic(auto)]

mod control;
mod locals;
mod steps;

pub use control::{control_laws, position_laws};
pub use locals::{LocalSimulation, answers_by_local_steps, follows_by_local_steps};
pub use steps::{StepSimulation, answers_by_steps, follows_by_steps};
