//! That programs with lowered statements do what their sources do.
#![tactic(auto)]

mod laws;

pub use laws::statement_laws;
