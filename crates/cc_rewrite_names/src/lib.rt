//! New names for what is added to a program.
#![tactic(auto)]

mod numbered;
mod reservations;

pub use numbered::{new_names, table_names, word_names};
pub use reservations::reserved;
