//! What expressions designate accesses each device without a name that they declare.
#![tactic(auto)]

mod law;

pub use law::{term_laws, type_laws};
