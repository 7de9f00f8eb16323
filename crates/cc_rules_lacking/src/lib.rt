//! The first thing that facts lack of what is asked of them.
#![tactic(auto)]

mod apart;
mod asked;
mod points;
mod sets;
mod values;

pub use asked::first_lacking_asked;
