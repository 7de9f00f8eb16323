//! How slots are put into the fields of words: each into the first open word of its group that has room.
#![tactic(auto)]

mod law;
mod open_words;
mod placing;
mod types;

pub use law::laws;
pub use placing::place;
pub use types::{Bins, Field, Want, Word};
