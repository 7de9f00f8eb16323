//! How often facts can still rise, at the most, as a number; and that it falls whenever facts rise.
#![tactic(auto)]

mod facts;
mod law;
mod marks;
mod points;
mod sets;

pub use facts::room;
pub use law::laws;
