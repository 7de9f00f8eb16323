//! What full expressions do next, from what their steps have given so far (C99 6.5).
#![tactic(auto)]

mod accesses;
mod action;
mod answering;
mod context;
mod effects;
mod eval;
mod kinds;
mod law;
mod mark;
mod operations;
mod operators;
mod progress;
mod spots;

pub use action::{Action, Manner};
pub use answering::{Answers, works_by};
pub use cc_typed as typed;
pub use cc_typed::syntax;
pub use cc_values as values;
pub use context::Context;
pub use eval::next_of;
pub use kinds::equations;
pub use law::laws;
pub use mark::Mark;
pub use progress::Stage;
pub use spots::object_type;
