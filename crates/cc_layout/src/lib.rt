//! Where the static objects of a program lie in RAM, and how much of it they take.
#![tactic(auto)]

mod law;
mod seats;

pub use law::laws;
pub use seats::{Seat, places, ram};
