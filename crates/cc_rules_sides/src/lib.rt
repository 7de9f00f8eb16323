//! What a test at a point leaves of the sets of registers, and of those of the tracked cells that equal some.
#![tactic(auto)]

mod cells;
mod locals;

pub use cells::left_rows;
pub use locals::{is_one_emptied, left_locals};
