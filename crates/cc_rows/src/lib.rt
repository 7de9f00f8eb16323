//! The rows of a text, which are lines of fields with commas between them, and the numbers that fields write.
#![tactic(auto)]

mod number;
mod row;

pub use number::{number_in, signed_in};
pub use row::{FromRow, lines_of};
