//! Laws: which static objects the addresses in a run name.
#![tactic(auto)]

mod law;

pub use law::address_laws;
