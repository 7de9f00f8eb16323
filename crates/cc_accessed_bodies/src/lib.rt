//! What lines of a function's body are found to be accesses each device without a name that they declare.
#![tactic(auto)]

mod law;

pub use law::body_laws;
