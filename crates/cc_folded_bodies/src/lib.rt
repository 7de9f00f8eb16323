//! The bodies of functions are folded: so are the statements that lines are found to be, with the assignments that initialise objects.
#![tactic(auto)]

mod law;

pub use law::body_laws;
