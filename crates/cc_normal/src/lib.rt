//! Whether a program is in normal form.
#![tactic(auto)]

mod devices;
mod folding;
mod normal;
mod pure;
mod registers;
mod statements;

pub use normal::{has_normal_form, is_normal};
