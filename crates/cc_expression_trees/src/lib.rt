//! Types and expressions that are printed read back as trees.
#![tactic(auto)]

mod expression_law;
mod piece_law;
mod type_law;

pub use expression_law::expressions_read_back;
pub use piece_law::pieces_have_their_tokens;
pub use type_law::types_read_back;
