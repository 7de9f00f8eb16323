//! Whether facts, wherever they come from, have the shape of the facts of a program.
#![tactic(auto)]

mod addresses;
mod keys;
mod layout;
mod lists;
mod marks;
mod pairs;
mod points;
mod rows;
mod sets;
mod shape;

pub use shape::has_shape;
