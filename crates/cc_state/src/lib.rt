//! What facts say of the runs of a program: their shape, when a state lies in them, facts that cover a program, and what is
//! known at its points.
#![tactic(auto)]

mod covering;
pub mod kinds;
mod points;

pub use covering::covered;
pub use points::{keys_of, read_of, value_of};
