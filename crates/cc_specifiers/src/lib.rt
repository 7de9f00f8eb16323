//! Specifiers, attributes, and the types that declarators derive (C99 6.7.1 to 6.7.3, 6.7.5), as far as they need no
//! names in scope.
#![tactic(auto)]

mod attribute;
mod basic;
mod bound;
mod declarator;
mod derivation;
mod derived;
mod fault;
mod mode;
mod object;
mod parameter;
mod specifier;
mod storage;

pub use attribute::{
    Attribute, Entity, are_meant, attributes, attributes_in, entry_by, has_meaning,
};
pub use basic::{Basic, Length, Sign};
pub use bound::bound_judged;
pub use declarator::{Form, declares_function, form_of};
pub use derivation::{
    Allowed, Declarator, Derivation, Parameter, pointer_derivation, suffix_found,
};
pub use derived::type_found;
pub use fault::{BreachAt, breach_at};
pub use mode::modes_judged;
pub use object::{is_object, object_size};
pub use parameter::{adjusted, parameter_type};
pub use specifier::{Base, Specified, Specifier, Specs, no_specifier};
pub use storage::{Setting, Where, fits_storage};
