//! Explicit sets of numbers: at most 64 of them, in the value itself.
#![tactic(auto)]

mod explicit;
mod search;
mod within;

pub use explicit::{Explicit, MOST_MEMBERS};
