//! Which declarations of a name speak of one object or function (C99 6.2.2).
#![tactic(auto)]

mod judgments;
mod linkage;
mod types;

pub use judgments::{is_visible, may_be_declared, may_be_main};
pub use linkage::{DeclaredAs, declare_linked};
