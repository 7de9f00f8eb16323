//! Types, constants and expressions that show those of a program are typed to them.
#![tactic(auto)]

mod constant_law;
mod expression_law;
mod operand_law;
mod operation_law;
mod type_law;

pub use constant_law::constants_are_typed;
pub use expression_law::expressions_are_typed;
pub use operand_law::operands_stay;
pub use operation_law::operations_are_typed;
pub use type_law::types_are_typed;
