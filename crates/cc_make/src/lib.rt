//! Made sources: programs of any length, drawn from a seed.
#![tactic(auto)]

mod counters;
mod law;
mod source;

pub use law::laws;
pub use source::make;
