//! Initialisers (C99 6.7.8): what is done for one, from left to right, so that each scalar of the object is given
//! something in the order of paths; the bound that one gives to an array; and the places of an object's scalars.
#![tactic(auto)]

mod bound;
mod content;
mod given;
mod scalars;
mod step;
mod walk;

pub use bound::bound_given;
pub use given::refused;
pub use scalars::scalar_places;
pub use step::Step;
pub use walk::initialised;
