//! Sets of addresses as a domain: at most 64 exact ones, or else the places in which they lie.
#![tactic(auto)]

mod abs;
mod address;
mod addrs;
mod addrs_lattice;
mod grow;
mod law;
mod listed;
mod members;
mod moved;
mod order;
mod sets;

pub use abs::Abs;
pub use addrs::Addrs;
pub use law::laws;
pub use listed::are_members;
