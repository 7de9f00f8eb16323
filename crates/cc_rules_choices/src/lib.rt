//! What flows where a statement tests: to the sides of an `if`, and to the cases of a `switch` and behind it.
#![tactic(auto)]

mod after;
mod choices;
mod counts;
mod sides;
mod starts;

pub use after::{after_if, after_switch};
