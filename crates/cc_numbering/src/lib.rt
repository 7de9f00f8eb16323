//! The typed unit that is left behind the items of a source, with its structures numbered so that each comes before
//! those that contain it.
#![tactic(auto)]

mod names;
mod numbers;
mod structures;
mod units;

pub use units::unit_left;
