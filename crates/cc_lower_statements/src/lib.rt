//! Programs whose loops are all `while (1)`, without blocks and without empty statements.
#![tactic(auto)]

mod loops;
mod program;
mod statements;

pub use loops::is_nonzero_constant;
pub use program::lower_statements;
