//! The program that texts are read as accesses each of its devices that has no name.
#![tactic(auto)]

mod law;

pub use law::read_laws;
