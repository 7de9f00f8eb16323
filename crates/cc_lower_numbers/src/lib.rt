//! Programs whose temporaries have names and stand in the order of their first writing, and whose devices stand in the order of the text.
#![tactic(auto)]

mod devices;
mod expr;
mod locals;
mod names;
mod order;
mod program;
mod stmt;
mod temporaries;

pub use program::number_program;
