//! What a unit knows behind the text of a program: its declarations by name, and its definitions with their bodies.
#![tactic(auto)]

mod definition_law;
mod name_law;
mod statement_law;
mod unit_law;

pub use definition_law::definitions_are_typed;
pub use name_law::names_are_declared;
pub use statement_law::statements_are_typed;
pub use unit_law::units_are_typed;
