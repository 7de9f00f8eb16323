//! The meaning of whole programs: a machine that makes the turns of a run. What a turn is, and what a run is, stands in
//! `cc_steps`; that each machine is in a state of its program is proved of it, by the laws of `cc_states`.
#![tactic(auto)]

mod machine;
mod turns;

pub use cc_states::steps::{
    Activation, End, Event, Simulation, SimulationBack, Took, answers_by, follows_by, orders,
};
pub use machine::Machine;
pub use turns::start;
