//! That what lowering gives is sound and in normal form.
#![tactic(auto)]

mod laws;

pub use laws::lowered_laws;
