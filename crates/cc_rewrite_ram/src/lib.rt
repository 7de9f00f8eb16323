//! Laws: the RAM of objects that stand by alignment descending.
#![tactic(auto)]

mod law;

pub use law::laws;
