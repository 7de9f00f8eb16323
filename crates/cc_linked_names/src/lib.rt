//! The names that linking gives to structures, to objects, devices and functions, and to locals.
#![tactic(auto)]

mod given;
mod reserved;
mod wishes;

pub use given::{FileNames, Given, given_names, position_at};
