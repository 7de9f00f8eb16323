//! Solves systems of constraints: the least facts that meet all of them.
#![tactic(auto)]

mod solve;
mod system;
mod work;

pub use solve::least;
pub use system::System;
