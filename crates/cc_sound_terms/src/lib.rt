//! What expressions, type names, specifiers and declarators mean is typed, and the types that they name may stand, over each view that knows what they declare.
#![tactic(auto)]

mod law;

pub use law::{expression_laws, type_laws};
