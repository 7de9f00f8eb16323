//! Laws: a program with its static objects in another order, some of them left out, follows its source and answers it.
#![tactic(auto)]

mod law;

pub use law::ordered_program_laws;
