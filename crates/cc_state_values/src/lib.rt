//! What expressions and places may give, by what the registers of their function may hold: over any domain of integers,
//! and sets of addresses.
#![tactic(auto)]

mod context;
mod law;
mod values;

pub use cc_state_operators as state_operators;
pub use cc_state_operators::{lattice, places_crate as places};
pub use cc_state_shared as state_shared;
pub use context::Context;
pub use law::laws;
pub use values::{addresses_of, value_of};
