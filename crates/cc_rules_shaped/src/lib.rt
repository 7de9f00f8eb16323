//! Laws: facts of a program's shape that get what constraints ask keep the shape.
#![tactic(auto)]

mod law;

pub use law::laws;
