//! What the facts about a program are made of: values with an order, and domains of sets of numbers.
//! Each is a trait, whose laws every implementation proves. Pairs and tables of lattices are lattices
//! part by part.
#![tactic(auto)]

mod copy;
mod domain;
mod lattice;
mod law;
mod pair;
mod table;

pub use copy::copied;
pub use domain::{Concrete, IntDomain};
pub use lattice::Lattice;
pub use law::laws;
pub use pair::Pair;
pub use table::Table;
