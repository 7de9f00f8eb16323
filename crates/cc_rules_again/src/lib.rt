//! Laws: which constraints are asked again where one has raised facts.
#![tactic(auto)]

mod law;

pub use law::laws;
