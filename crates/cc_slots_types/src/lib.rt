//! What a slot is: a variable of a program, or a member of its structures, that may be told by a code of few bits.
#![tactic(auto)]

mod class;
mod reason;
mod slot;

pub use class::Class;
pub use reason::Reason;
pub use slot::Slot;
