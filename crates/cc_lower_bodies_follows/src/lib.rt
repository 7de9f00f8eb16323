//! That programs with lowered bodies do what their sources do.
#![tactic(auto)]

mod laws;

pub use laws::expression_laws;
