//! Laws: where objects stand once slots are packed, and that their scalars do not meet there.
#![tactic(auto)]

mod law;

pub use law::layouts;
