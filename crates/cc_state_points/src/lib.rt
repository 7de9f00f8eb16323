//! Law: what the operands of a statement in normal form are.
#![tactic(auto)]

mod law;

pub use cc_rules_flows as rules_flows;
pub use cc_rules_flows::{
    flow, lattice, places, registers, rules_needs, state_facts, state_keys, state_shared,
    state_values,
};
pub use cc_state as state;
pub use law::points;
