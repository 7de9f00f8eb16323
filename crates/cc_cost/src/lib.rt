//! The profile: the widths of a chip, the names of the intrinsics and handlers, how often functions run, and what
//! code and time may cost, as lines of fields with commas between them.
#![tactic(auto)]

mod fault;
mod field;
mod given;
mod key;
mod law;
mod names;
mod profile;
mod read;
mod row;
mod rules;
mod setting;

pub use fault::ProfileFault;
pub use law::laws;
pub use profile::Profile;
pub use read::{default_profile, read_profile};
