//! Laws: expressions do what they did where static objects have other numbers.
#![tactic(auto)]

mod law;

pub use law::renaming_laws;
