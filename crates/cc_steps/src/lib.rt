//! The meaning of whole programs: states, steps, turns and runs, as definitions in `specs/`, and runs that are proved to take
//! those steps. Handlers may enter between any two steps.
#![tactic(auto)]

mod accesses;
mod activation;
mod boundary;
mod calls;
mod choices;
mod content;
mod event;
mod initial;
mod laws;
mod progress;
mod returns;
mod run;
mod stack;
mod step;
mod turn;

pub use activation::Activation;
pub use boundary::at_boundary;
pub use cc_eval as eval;
pub use cc_eval::{syntax, typed};
pub use event::{End, Event, Took};
pub use initial::start;
pub use laws::{
    Simulation, SimulationBack, activation_laws, answers_by, follows_by, orders, write_laws,
};
pub use progress::progress_at;
pub use run::Run;
