//! Which plan of coded slots is chosen.
#![tactic(auto)]

mod choosing;
mod fate;
mod lists;
mod order;

pub use choosing::choose;
