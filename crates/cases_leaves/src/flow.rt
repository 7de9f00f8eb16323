//! Points of programs, and where control goes from each.

mod builder;
mod nests;
mod outcome;
mod roles;
mod words;

pub use nests::write_outcome as write_nests;
pub use words::write_outcome as write_points;
