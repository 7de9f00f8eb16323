//! What declarations mean (C99 6.7): what they leave known, and the assignments by which automatic objects are
//! initialised; or the first fault.
//! The bodies of functions: what their statements and declarations mean, or which type rule they break first (C99 6.8).
#![tactic(auto)]

mod automatic;
mod block_declarations;
mod blocks;
mod choices;
mod declarations;
mod expressions;
mod function;
mod functions;
mod labels;
mod linked;
mod loops;
mod plans;
mod scopes;
mod simple;
mod statics;
mod switched;

pub use blocks::lines;
pub use cc_linkage as linkage;
pub use cc_objects as objects_crate;
pub use cc_terms::{lex, operands, specifiers_crate as specifiers, syntax, unit};
pub use cc_typed_statements as typed_statements;
pub use declarations::{declaration, joined};
pub use function::Function;
