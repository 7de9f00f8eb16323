//! Facts of a program's shape are raised by what is asked of them: the least ones above them that have it.
#![tactic(auto)]

mod changed;
mod completed;
mod raise;
mod slots;

pub use raise::raise_asked;
