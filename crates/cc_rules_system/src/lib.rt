//! The constraints on facts about a program as a system, and the least facts that meet all of them.
#![tactic(auto)]

mod least;
mod system;

pub use least::{LeastEnd, least_facts};
pub use system::ConstraintSystem;
