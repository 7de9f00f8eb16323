//! Which statements access the cells of a key, and what is known of each access.
#![tactic(auto)]

mod access;
mod arrays;
mod known;
mod lists;
mod named;
mod places;
mod puts;
mod visits;

pub use access::Access;
pub use arrays::{array_length, ctype_of, length_of};
pub use visits::visit;
