//! Structures of a unit in a program: types, first values and functions keep their meaning when structures are numbered anew.
#![tactic(auto)]

mod source_law;
mod structure_law;
mod type_law;
mod unit_law;

pub use source_law::view_laws;
pub use structure_law::structure_laws;
pub use type_law::renumbered_laws;
pub use unit_law::relocated_laws;
