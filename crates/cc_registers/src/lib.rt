//! Which locals of a function are registers, found in one walk of its body.
#![tactic(auto)]

mod expressions;
mod marks;
mod registers;
mod statements;

pub use registers::registers_of;
