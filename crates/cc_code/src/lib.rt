//! How the values of a slot are told by codes of few bits.
#![tactic(auto)]

mod choice;
mod code;
pub mod kinds;
mod law;
mod members;

pub use choice::{coding, kind_of};
pub use code::{Decoded, decode, encode};
pub use law::{known_codings, laws};
pub use members::count_of;
