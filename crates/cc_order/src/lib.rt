//! The order of a text, and the positions that things have in a list.
#![tactic(auto)]

mod place;
mod positions;

pub use place::{Place, sort_places};
pub use positions::first_positions;
