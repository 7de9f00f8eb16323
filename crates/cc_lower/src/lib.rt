//! Programs in normal form, of any programs: what `docs/LOWERING.md` says.
#![tactic(auto)]

mod law;
mod passes;

pub use law::laws;
pub use passes::lower;
