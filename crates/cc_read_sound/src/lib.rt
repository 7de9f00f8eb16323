//! Typed units are sound, and so is the program that texts are read as.
#![tactic(auto)]

mod first_value_law;
mod function_law;
mod read_law;
mod unit_law;

pub use first_value_law::first_value_laws;
pub use function_law::function_laws;
pub use read_law::read_laws;
pub use unit_law::unit_laws;
