//! Laws: what an expression may give is of its type, with the addresses that may stand there.
#![tactic(auto)]

mod law;

pub use law::{laws, wholes};
