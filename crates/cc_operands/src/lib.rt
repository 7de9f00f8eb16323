//! What operators make of typed operands, or which type rule they break (C99 6.3, 6.5).
#![tactic(auto)]

mod arithmetic;
mod assignment;
mod choice;
mod constants;
mod operand;
mod operator;
mod qualified;
mod rule;
mod types;
mod unary_operators;
mod verdict;

pub use arithmetic::binary;
pub use assignment::{assigned, changed, stepped, stored};
pub use cc_lex as lex;
pub use cc_typed as typed_crate;
pub use cc_typed::syntax;
pub use choice::{chosen, comma};
pub use constants::Constant;
pub use operand::{
    Operand, as_nothing, cast_to, character_value, integer, null_of, number_type, size_type, typed,
};
pub use operator::{Operator, UnaryOperator, assigns_by, operator_of, unary_operator_of};
pub use qualified::{qualified_as, qualified_by, type_of_value, without_const};
pub use rule::Rule;
pub use types::{OperandType, owned};
pub use unary_operators::unary;
pub use verdict::Breach;
