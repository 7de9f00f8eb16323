//! Which structures of several sources are one type (C99 6.2.7, 1), and their numbers in the program.
#![tactic(auto)]

mod classes;
mod firsts;
mod known;
mod looks;
mod nodes;
mod ordered;
mod refined;
mod structures;
mod words;

pub use known::Known;
pub use structures::{Structures, structures_of};
