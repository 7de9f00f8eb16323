//! What coding each slot of a program costs: for each access in code and in time, and for tables their bytes.
#![tactic(auto)]

mod costing;
mod counts;
mod guards;
mod law;
mod seen;
mod sites;
mod tables;
mod weights;

pub use costing::costs;
pub use counts::counts_of;
pub use law::laws;
pub use seen::candidates;
pub use tables::prices;
