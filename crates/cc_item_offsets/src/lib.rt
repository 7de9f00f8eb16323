//! The declarators of a unit's items begin in order.
#![tactic(auto)]

mod laws;

pub use laws::items_ascend;
