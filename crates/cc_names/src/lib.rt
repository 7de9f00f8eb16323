//! Names that are given one after the other, none twice in a space (C99 6.2.3).
#![tactic(auto)]

mod names;
mod taken;
mod wish;

pub use names::{inner_names_for, names_for};
pub use taken::{Names, Taken};
pub use wish::Wish;
