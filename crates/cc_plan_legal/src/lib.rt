//! What a plan of coded slots is, and when it is legal.
#![tactic(auto)]

mod candidate;
mod fields;
mod groups;
mod index;
pub mod kinds;
mod law;
mod legal;
mod parts;
mod plans;
mod rules;
mod standing;

pub use candidate::{Candidate, Form, candidate_of};
pub use index::{Index, field_of, index_of, is_among};
pub use law::laws;
pub use legal::{Illegal, first_illegal};
pub use parts::Parts;
