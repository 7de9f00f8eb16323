//! Laws: an action that two programs perform, of which one has static scalars in words, at what stands in both alike.
#![tactic(auto)]

mod law;

pub use law::{KeptActions, actions_alike, returns_alike};
