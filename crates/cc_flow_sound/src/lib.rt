//! Law: how steps move activations among the points of a program in normal form.
#![tactic(auto)]

mod law;

pub use cc_flow as flow;
pub use law::moves;
