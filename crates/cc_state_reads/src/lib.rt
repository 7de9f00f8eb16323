//! What an access to a place may give at a point of a program, by facts, and the keys that a place names.
#![tactic(auto)]

mod named;
mod reads;
mod unions;

pub use cc_state_keys as state_keys;
pub use cc_state_keys::{
    cells_crate as cells, eval, flow, registers_crate as registers, state_facts,
    typed_crate as typed,
};
pub use cc_state_values as state_values;
pub use cc_state_values::{lattice, places, state_operators, state_shared};
pub use named::keys_named;
pub use reads::read_of;
