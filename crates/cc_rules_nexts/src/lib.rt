//! What the constraint of flows asks of the next points of a point that is reached.
#![tactic(auto)]

mod nexts;
mod passing;

pub use nexts::asked_of_told;
pub use passing::asked_by_flow;
