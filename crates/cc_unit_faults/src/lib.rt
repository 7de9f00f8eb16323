//! Which fault a translation unit carries.
#![tactic(auto)]

mod law;

pub use law::a_refusal_names_the_first_fault;
