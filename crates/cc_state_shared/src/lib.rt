//! Values that several owners share, and that contracts see as themselves.
#![tactic(auto)]

mod shared;

pub use shared::{Shared, share_all};
