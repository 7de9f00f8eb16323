//! The type of each expression and each place of a program (C99 6.5), and which locals are registers.
#![tactic(auto)]

mod expressions;
mod kinds;
mod operators;
mod parts;
mod paths;
mod registers;
mod same;
mod values;

pub use cc_syntax as syntax;
pub use expressions::{Scope, is_assignable_some, is_unqualified, static_type};
pub use kinds::{Kind, is_object_type, is_plain_scalar, is_result, kind_in, kind_of};
pub use operators::{function_type, is_promoted, is_shift};
pub use paths::{bound_of, place_at, step_into};
pub use registers::is_register;
pub use same::{alike, same_flag, same_int, same_shape};
pub use values::{
    PlaceType, ValueType, is_void, object_place, pointer_to, result_value, scalar_value,
};
