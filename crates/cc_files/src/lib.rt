//! The files that commands read, whole and within limits.
#![tactic(auto)]

mod sources;
mod unread;

pub use sources::read_sources;
pub use unread::{Unread, copy_name, read_file};
