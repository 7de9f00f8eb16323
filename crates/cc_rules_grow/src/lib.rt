//! Laws: what constraints ask of facts grows with the facts.
#![tactic(auto)]

mod law;

pub use cc_rules::{flow, lattice, state_facts};
pub use cc_state_points::state;
pub use law::laws;
