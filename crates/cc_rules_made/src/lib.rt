//! What the constraints on facts want of a program, made once for all of its points.
#![tactic(auto)]

mod cells;
mod handlers;
mod marks;
mod rules;

pub use rules::{Rules, rules_of};
