//! Declarators of functions, structures and first values that show those of a program are typed to them.
#![tactic(auto)]

mod declarator_law;
mod item_law;
mod left_law;
mod structure_law;
mod value_law;

pub use declarator_law::functions_are_declared;
pub use item_law::structure_items_are_typed;
pub use left_law::structures_are_left;
pub use structure_law::structures_are_declared;
pub use value_law::values_are_typed;
