//! Laws: what an expression may give, and the addresses of a place, grow with the sets of the registers.
#![tactic(auto)]

mod law;

pub use law::laws;
