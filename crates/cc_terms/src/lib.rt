//! What expressions, type names, specifiers, declarators and parameters mean, or which type rule they break
//! (C99 6.5, 6.7.2 to 6.7.6).
#![tactic(auto)]

mod constants;
mod declarators;
mod members;
mod operations;
mod operators;
mod parameters;
mod postfix;
mod specifiers;
mod structures;
mod trees;
mod type_names;

pub use cc_typed_terms::{lex, operands, specifiers_crate, syntax, unit};
pub use declarators::declr;
pub use specifiers::specified;
pub use trees::{designator, tree, value};
pub use type_names::type_name;
