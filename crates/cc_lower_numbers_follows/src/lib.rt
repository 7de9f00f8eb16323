//! Laws of programs whose locals and devices have other numbers: each follows the program with the old ones, and answers it.
#![tactic(auto)]

mod laws;

pub use laws::renaming_laws;
