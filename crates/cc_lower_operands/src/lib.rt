//! Full expressions in normal form: what an expression becomes as an operand, as a whole right side, and as an expression statement.
#![tactic(auto)]

mod full;
mod operands;
mod parts;

pub use full::{effect, operand};
