//! That what lowering gives is typed, and in normal form but for numbers and names.
#![tactic(auto)]

mod piece_law;
mod program_law;

pub use piece_law::{normal_piece_laws, typed_piece_laws};
pub use program_law::{lowered_expression_laws, lowered_program_laws, lowered_statement_laws};
