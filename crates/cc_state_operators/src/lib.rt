//! What the operators of C, and the members and elements of objects, give on sets of values: over any domain of
//! integers, and sets of addresses.
#![tactic(auto)]

mod named;
mod offsets;
mod operands;
mod operators;
mod pairs;
mod places;
mod truths;

pub use cc_eval::typed;
pub use cc_lattice as lattice;
pub use cc_places as places_crate;
pub use operands::{integers, result_of_one, result_of_two};
pub use operators::{OneOperand, TwoOperands};
pub use places::{elements, members, object, only};
pub use truths::{chosen, may_be};
