//! What the constraints on facts ask at a point that is reached, by what its statement does: for writes and reads, returns, handlers
//! that may enter, and cells that these may write.
#![tactic(auto)]

mod asked;
mod handlers;
mod keys;
mod marks;
mod returns;
mod sets;
mod stability;
mod touches;
mod writes;

pub use asked::{Asked, only_part};
pub use cc_rules::{
    cells, flow, lattice, places, registers, rules_flows, rules_needs, state_facts, state_keys,
    state_operators, state_shared, state_values,
};
pub use handlers::{Handler, asked_by_handlers};
pub use marks::{levels, mark, only_level};
pub use returns::asked_by_return;
pub use sets::copied_set;
pub use stability::asked_by_stability;
pub use touches::asked_by_touch;
pub use writes::asked_by_write;
