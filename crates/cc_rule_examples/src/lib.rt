//! What the type rules say of small cases (C99 6.2, 6.4, 6.5, 6.7). The calls do nothing.
#![tactic(auto)]

mod declarations;
mod expressions;

pub use declarations::{attributes, basic_types, bounds, linkage, storage};
pub use expressions::{constants, devices, prefixes, strings, values};
