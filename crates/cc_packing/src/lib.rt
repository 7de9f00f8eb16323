//! Packing: the program that sources are is written as one source, with a table that tells its RAM.
#![tactic(auto)]

mod law;
mod material;
mod outputs;
mod packing;
mod program;
mod texts;

pub use law::laws;
pub use packing::{Packing, pack};
