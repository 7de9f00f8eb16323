//! Law: facts of the shape of a program in normal form that solve its constraints cover all its runs.
#![tactic(auto)]

mod law;

pub use law::solutions;
