//! Facts about a program are taken, from wherever they come, only where they cover it; else the first constraint that they break is told.
#![tactic(auto)]

mod acceptance;
mod broken;
mod denied;

pub use acceptance::accept;
pub use broken::{Broken, first_broken};
pub use denied::Denied;
