//! Laws: the homes that a legal plan gives to static objects do not meet.
#![tactic(auto)]

mod law;

pub use law::placed;
