//! What full expressions in normal form are made of: temporaries, reads and changes of places, constants that are folded, and
//! what is known of expressions before they run.
#![tactic(auto)]

mod accesses;
mod body;
mod effects;
mod folded;
mod temporaries;

pub use body::Body;
pub use temporaries::{assign, declared_type, fresh, into, load, set};
