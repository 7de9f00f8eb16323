//! The type rules of C (C99 6.2 to 6.9): which sentences are programs, and the typed unit of each.
#![tactic(auto)]

mod defined;
mod elaboration;
mod fault;
mod functions;
mod law;
mod signature;
mod units;

pub use cc_typed_bodies::{lex, unit};
pub use elaboration::elaborate;
pub use fault::TypeFault;
pub use law::units_have_types_or_a_fault;
