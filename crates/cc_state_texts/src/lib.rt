//! How values are written in tables and reports: integers in decimal, addresses by the names that the program gives.
#![tactic(auto)]

mod bytes;
mod values;

pub use bytes::{put, put_integer, put_number, put_sum};
pub use values::put_values;
