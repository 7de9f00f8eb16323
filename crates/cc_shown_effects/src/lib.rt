//! Assignments, calls, intrinsics and lines that show those of a program are typed to them.
#![tactic(auto)]

mod assignment_law;
mod call_law;
mod effect_law;
mod intrinsic_law;
mod line_law;

pub use assignment_law::assignments_are_typed;
pub use call_law::calls_are_typed;
pub use effect_law::effects_are_typed;
pub use intrinsic_law::intrinsics_are_typed;
pub use line_law::lines_are_typed;
