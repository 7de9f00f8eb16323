//! Linking: typed units become one program, or the first cause why they are none is told (C99 6.2.2, 6.2.7, 6.9).
#![tactic(auto)]

mod fault;
mod gathered;
mod ids;
mod law;
mod linking;
mod parts;
mod tables;

pub use cc_causes::LinkFault;
pub use fault::LinkEnd;
pub use law::laws;
pub use linking::link;
