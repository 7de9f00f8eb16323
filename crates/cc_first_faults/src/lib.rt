//! Which fault of a declaration is carried.
#![tactic(auto)]

mod law;

pub use law::the_first_fault_is_carried;
