//! What operators, assignments, calls and casts make of folded operands is folded.
#![tactic(auto)]

mod law;

pub use law::{designator_laws, operand_laws};
