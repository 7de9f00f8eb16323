//! How what facts have, and what a constraint asks of them, is written in reports.
#![tactic(auto)]

mod had;
mod names;
mod parts;

pub use had::had_text;
pub use names::Names;
pub use parts::part_text;
