//! The table that `pack` writes beside the output, as lines of fields with commas between them.
#![tactic(auto)]

mod rows;

pub use rows::table;
