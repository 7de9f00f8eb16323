//! Sets of numbers as a domain: up to 64 members one by one, and else all numbers of some bits.
#![tactic(auto)]

mod gather;
mod gathered;
mod image;
mod keep;
mod law;
mod make;
mod range;
mod range_rule;
mod vals;
mod vals_domain;

pub use law::laws;
pub use range::Range;
pub use vals::Vals;
