//! Which constraints on facts are asked again where one has raised facts, by what is told once of each point of a program.
#![tactic(auto)]

mod asking;
mod calls;
mod deeds;
mod groups;
mod index;
mod lists;
mod naming;
mod picked;
mod points;
mod stability;
mod whole;

pub use asking::again;
pub use index::{Index, index_of};
