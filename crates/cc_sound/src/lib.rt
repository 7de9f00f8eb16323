//! Whether a program is sound: what reading C makes, and what each pass is given.
#![tactic(auto)]

mod initial;
mod names;
mod program;
mod statements;

pub use initial::names_place;
pub use program::{is_numbered, is_sound};
