//! The program that texts are read as has folded expressions.
#![tactic(auto)]

mod law;

pub use law::read_laws;
