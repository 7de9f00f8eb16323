//! Facts of the shape of a program within the limits, such as a memory holds, are small: their room is a number of 128 bits.
#![tactic(auto)]

mod law;
mod memory;

pub use law::laws;
pub use memory::{held, held_levels, held_point, held_set};
