//! Types of operands: what the type rules ask of them over any view, and types without const.
#![tactic(auto)]

mod kind_law;
mod operand_law;
mod reduced_law;
mod unit_law;

pub use kind_law::kind_laws;
pub use operand_law::{assignment_laws, call_laws, designator_laws, operator_laws};
pub use reduced_law::reduced_laws;
pub use unit_law::object_laws;
