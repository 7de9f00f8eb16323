//! The constraints on facts about all runs of a program in normal form.
#![tactic(auto)]

pub use cc_rules_flows as rules_flows;
pub use cc_rules_flows::{
    cells, flow, lattice, places, registers, rules_needs, state_facts, state_keys, state_operators,
    state_reads, state_shared, state_values,
};
