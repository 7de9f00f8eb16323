//! That programs with numbered temporaries are sound, and in normal form, where their sources are.
#![tactic(auto)]

mod laws;

pub use laws::numbered_laws;
