//! The scalars of objects and of locals (C99 6.2.5, 21): what they start with, how many there are, where each one stands,
//! and how one is read and written.
#![tactic(auto)]

mod cells;
mod counts;
mod scalars;

pub use cells::{read_scalar, write_scalar};
pub use counts::{count, position};
pub use scalars::{structure_zeros, zeros_over};
