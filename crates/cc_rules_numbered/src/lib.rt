//! The constraints on facts by their numbers.
#![tactic(auto)]

mod constraints;

pub use constraints::{Constraint, Rule, constraint_at, constraint_count};
