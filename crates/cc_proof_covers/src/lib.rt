//! Law: facts that are closed under the rules of a program in normal form cover each of its runs, for all inputs and under all arrivals of
//! interrupts.
#![tactic(auto)]

mod law;
mod views;

pub use law::covers;
pub use views::FactView;
