//! The printed text of a program in normal form reads as the program: its unit is the one that shows the program, and links to it.
#![tactic(auto)]

mod link_law;
mod read_law;

pub use link_law::shown_programs_link;
pub use read_law::programs_read;
