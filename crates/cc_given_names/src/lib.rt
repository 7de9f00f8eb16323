//! Names that are given one after the other are distinct, new where they are not wished for, and may name something.
#![tactic(auto)]

mod law;

pub use law::name_laws;
