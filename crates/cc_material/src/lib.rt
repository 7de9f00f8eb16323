//! What the commands on programs stand on: the profile, the program of the sources, and its limits.
#![tactic(auto)]

mod limits;
mod profile;
mod refusal;
mod sources;

pub use limits::above;
pub use profile::profile_of;
pub use sources::program_of;
