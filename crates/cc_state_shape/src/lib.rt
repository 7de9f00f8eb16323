//! Facts of a program's shape: they are of one kind, and the lowest of them.
#![tactic(auto)]

mod empty;
mod facts;
mod law;

pub use empty::{holds_addresses, none_of};
pub use facts::lowest;
pub use law::laws;
