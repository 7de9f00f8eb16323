//! All accesses of the keys of a program, point by point.
#![tactic(auto)]

mod contexts;
mod frames;
mod lists;
mod points;

pub use lists::accesses;
