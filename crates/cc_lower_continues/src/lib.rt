//! Programs where no `do` whose test may fail has a `continue` of its own.
#![tactic(auto)]

mod continues;
mod flags;
mod program;
mod statements;

pub use program::lower_continues;
