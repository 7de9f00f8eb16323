//! The slots of a program: which there are, and why they are not coded.
#![tactic(auto)]

mod addressed;
mod codes;
mod counts;
mod findings;
mod first;
mod judged;
mod keys;
mod law;
mod list;

pub use codes::{Code, code_of, is_wide};
pub use counts::{scalar_bytes, scalar_count, slot_name};
pub use first::{Findings, first_reason};
pub use judged::{class_of, is_torn, is_unbounded, is_volatile_somewhere, reads, writes};
pub use keys::slot_keys;
pub use law::laws;
pub use list::slots;
