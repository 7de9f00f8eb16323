//! Law: what each constraint reads of facts. Facts that are the same there are asked the same.
#![tactic(auto)]

mod law;

pub use law::laws;
