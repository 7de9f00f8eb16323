//! What names, constants, strings and devices designate, and what operators make of expressions whose parts are typed
//! (C99 6.3.2.1, 6.4.4, 6.4.5, 6.5), up to a place of a translation unit.
//! What declarators, parameters, members and specifiers are judged by in a place of a translation unit, once their parts
//! are typed (C99 6.7.2, 6.7.5).
#![tactic(auto)]

mod declarators;
mod devices;
mod members;
mod names;
mod operators;
mod parameters;
mod places;
mod prefix;
mod primary;
mod sizes;
mod specifiers;
mod values;

pub use cc_designators as designators;
pub use cc_scopes as scopes;
pub use cc_scopes::{lex, operands, syntax, typed, unit_crate as unit};
pub use cc_specifiers as specifiers_crate;
pub use declarators::{
    ScopedDeclarator, copied, declarator_of, derived_type, is_next_to_name, suffix,
};
pub use devices::starred;
pub use members::{Members, of_structure, with_member};
pub use names::new_name;
pub use operators::{
    address_expr, after_expr, assign_expr, binary_expr, call_expr, choose_expr, comma_expr,
    element_in, intrinsic_expr, step_expr, unary_expr,
};
pub use parameters::{no_parameters, parameter_bound};
pub use places::located;
pub use prefix::{Prefix, is_minus, prefix_of};
pub use primary::{character, intrinsic_named, is_intrinsic, leaves_or_none, named, number, text};
pub use sizes::{sizeof_expr, sizeof_type_expr};
pub use specifiers::{begin, enumeration_tagged, marked, structure_tagged, type_named};
pub use values::{designating, intrinsic_in, value_of};
