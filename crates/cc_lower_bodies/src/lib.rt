//! Statements and whole programs in normal form: their full expressions lowered, in statements of their own.
#![tactic(auto)]

mod conditions;
mod made;
mod program;
mod statements;

pub use program::lower_expressions;
