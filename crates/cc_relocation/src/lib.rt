//! What one source has, with the names and ids of the program that it is linked into.
#![tactic(auto)]

mod parts;

pub use parts::{relocated_device, relocated_func, relocated_object, relocated_structure};
