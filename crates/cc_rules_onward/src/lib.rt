//! What flows ask of the next points of a point that is reached, whatever its statement does.
#![tactic(auto)]

mod flows;
mod law;

pub use flows::asked_by_flows;
pub use law::laws;
