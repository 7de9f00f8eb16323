//! A law: what a legal plan saves.
#![tactic(auto)]

mod law;

pub use law::laws;
