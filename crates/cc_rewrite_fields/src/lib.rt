//! Laws: fields of words, and how C's operators in `unsigned int` read and write them.
#![tactic(auto)]

mod law;

pub use law::{arrays, fields, operators};
