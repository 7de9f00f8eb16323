//! Where an activation stands in the lists of statements of its function, and where it goes on (C99 6.8).
#![tactic(auto)]

mod begin;
mod goes_on;
mod labels;
mod level;
mod phase;
mod statements;

pub use goes_on::{arm, behind, broken, close, continued};
pub use labels::{by_default, by_label};
pub use level::{Control, Left, Level, around_list, first};
pub use phase::Phase;
pub use statements::counted;
