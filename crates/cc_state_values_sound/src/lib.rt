//! Laws: what a pure expression gives in a run is among its abstract values, and where a place leads is among its addresses.
#![tactic(auto)]

mod law;

pub use cc_state_values::lattice;
pub use law::laws;
