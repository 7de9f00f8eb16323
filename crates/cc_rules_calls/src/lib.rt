//! What the constraints on facts ask where functions may be called: of their entries, and behind the call.
#![tactic(auto)]

mod backs;
mod call;
mod called;
mod entries;
mod known;
mod law;

pub use backs::asked_by_back;
pub use entries::asked_by_call;
pub use law::laws;
