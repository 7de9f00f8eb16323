//! What it costs to tell slots by codes, and which slots are coded: those that gain most for what they cost, as far as budgets
//! reach.
#![tactic(auto)]

mod costs;
mod law;
mod order;
mod priced;
mod taking;
mod types;

pub use costs::{Cost, Sites, estimate};
pub use law::laws;
pub use taking::rank;
pub use types::{Budgets, Costed, Weights};
