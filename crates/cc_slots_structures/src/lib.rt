//! Where the structures of a program stand: how often in its RAM, and whether in objects that are not const or are automatic.
#![tactic(auto)]

mod added;
mod standing;
mod structures;

pub use standing::Standing;
pub use structures::standings;
