//! That programs with lowered expressions do what their sources do.
#![tactic(auto)]

/// Nothing yet.
pub fn expression_laws() {}
