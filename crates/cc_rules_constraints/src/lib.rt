//! What each constraint on facts asks, by its number, and the first one that facts break.
#![tactic(auto)]

mod asking;
mod broken;
mod here;

pub use asking::asked;
pub use broken::{Broken, first_broken};
