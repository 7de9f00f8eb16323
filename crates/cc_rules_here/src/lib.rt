//! Points that are reached, as facts about a program in normal form have them, and what their statements do.
#![tactic(auto)]

mod acts;
mod here;
mod law;

pub use acts::act_here;
pub use here::here_at;
pub use law::laws;
