//! States of runs of sound programs: what holds of each, so that no default of the definitions is ever taken.
#![tactic(auto)]

mod law;

pub use cc_steps as steps;
pub use cc_steps::{eval, syntax, typed as typed_crate};
pub use law::{expression_laws, state_laws};
