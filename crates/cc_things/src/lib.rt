//! What sources name: objects, devices and functions as things, whichever sources mention them.
#![tactic(auto)]

mod facts;
mod identity;
mod lists;
mod mention;
mod text;
mod thing;

pub use facts::{is_defined, is_defined_twice, is_device, is_external, is_func, is_there, is_used};
pub use identity::{Identity, identity_of, position_of};
pub use mention::{Mention, mentions};
pub use text::Text;
pub use thing::{Thing, Things, things_of};
