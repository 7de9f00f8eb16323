//! The functions of a program, as the constraints on facts want them at calls.
#![tactic(auto)]

mod functions;

pub use functions::{Function, functions_of};
