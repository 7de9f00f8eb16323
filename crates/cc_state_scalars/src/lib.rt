//! The key of each scalar of each static object of a program, and of each local of a function, in order of path.
#![tactic(auto)]

mod listed;

pub use listed::{local_keys, static_keys};
