//! Address constants, and the first values of static objects (C99 6.6, 9; 6.7.8, 4).
#![tactic(auto)]

mod address;
mod spot;
mod statics;

pub use address::leaf_of;
pub use statics::Statics;
