//! The printed text of a program in normal form.
#![tactic(auto)]

mod declarations;
mod program;
mod structures;
mod uses;
mod values;

pub use program::print;
