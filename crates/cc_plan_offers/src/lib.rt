//! What slots are offered to the ranking, and the plan that is chosen of them.
#![tactic(auto)]

mod offered;
mod planning;

pub use offered::offers;
pub use planning::plan;
