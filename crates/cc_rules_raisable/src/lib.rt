//! That what constraints ask of facts of a program's shape is laid out so that the facts can be raised by it.
#![tactic(auto)]

mod law;

pub use law::laws;
