//! Tests of expressions: whether the values of a set pass them, and what they leave of the sets of registers. Over any domain of
//! integers, and sets of addresses.
#![tactic(auto)]

mod changed;
mod compared;
mod cut;
mod forms;
mod left;
mod members;
mod operand;
mod passing;
mod reading;
mod tested;
mod trial;
mod tried;

pub use forms::{Comparison, comparison_of};
pub use operand::{are_of, is_operand};
pub use passing::passes;
pub use tested::{Test, Tested};
pub use trial::Trial;
