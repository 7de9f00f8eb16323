//! Laws: where the scalars of a program stand in one whose slots are packed, and what writes keep.
#![tactic(auto)]

mod law;

pub use law::homes;
