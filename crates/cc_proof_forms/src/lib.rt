//! What the statements of programs in normal form ask for, form by form, and laws: with what facts have to say for each form its steps are
//! allowed, and so is where it goes; facts that have what each point asks cover all runs.
#![tactic(auto)]

mod law;
mod sets;

pub use law::{points, statements};
pub use sets::OperandView;
