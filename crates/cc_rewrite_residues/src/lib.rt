//! Laws: what an activation has still to do of a statement, told by what its turns come to.
#![tactic(auto)]

mod law;

pub use law::residues;
