//! What flows from each point of a program in normal form to its next points.
#![tactic(auto)]

mod acts;
mod after;
mod flag;
mod known;
mod statements;
mod together;

pub use acts::{Act, Body};
pub use after::Here;
pub use cc_flow_sound::flow;
pub use cc_rules_needs as rules_needs;
pub use cc_state_reads as state_reads;
pub use cc_state_reads::{
    cells, lattice, places, registers, state_facts, state_keys, state_operators, state_shared,
    state_values, typed,
};
pub use statements::statement_at;
pub use together::joined;
