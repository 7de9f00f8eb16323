//! The points of a program in normal form, and where control goes from each.
#![tactic(auto)]

mod counts;
mod function;
mod law;
mod next;
mod statements;
mod types;

pub use function::points;
pub use law::laws;
pub use types::{Flow, FlowEnd, Point};
