//! What the constraints on facts ask of first values: of the whole-run set of each key, and where main is entered.
#![tactic(auto)]

mod firsts;
mod initial;
mod rows;
mod sets;
mod start;

pub use firsts::asked_by_firsts;
pub use start::asked_by_start;
