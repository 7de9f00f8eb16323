//! What operators, assignments, calls and casts make of operands accesses each device that the operands access.
#![tactic(auto)]

mod law;

pub use law::{designator_laws, operand_laws};
