//! The top call: what the words of a command ask for, done over a store of files, and how it ended.
#![tactic(auto)]

mod call;
mod command;
mod make;

pub use call::ccomp;
pub use cc_status::{Status, What, explain, number};
