//! The table of a plan: the slots of a program, how each is coded or why it is not, and what that saves and costs.
#![tactic(auto)]

mod columns;
mod law;
mod row;
mod rows;
mod standing;
mod totals;

pub use law::{known_tables, laws};
pub use row::Ram;
pub use rows::table;
