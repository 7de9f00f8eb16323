//! What constraints need of facts, slot by slot: whether facts have it, and the least facts above them that do.
#![tactic(auto)]

mod lacking;
mod law;
mod needs;
mod point;
mod raise;

pub use lacking::{first_lacking, has};
pub use needs::{Need, Part, Slot};
pub use point::{has_point, raise_point};
pub use raise::raise_part;
