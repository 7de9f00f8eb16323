//! The plan of a program: which of its slots are coded, and where; whether a given plan is legal; and the table of a plan.
#![tactic(auto)]

mod legality;
mod planning;
mod settings;
mod tables;

pub use legality::legal;
pub use planning::plan;
pub use tables::table;
