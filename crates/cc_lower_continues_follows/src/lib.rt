//! That programs with lowered loops do what their sources do, whatever loops these have.
#![tactic(auto)]

mod laws;

pub use laws::lowering_laws;
