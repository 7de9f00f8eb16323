//! A machine that runs a program.

ghost use Rattle.std.specs.Prelude.{◌≡◌};
ghost use Rattle.cc_states.specs.States.{IsState};
ghost use Rattle.cc_states.specs.CcSteps.View.{state_of as state_of_run};

use cc_program::{Program, Value};
use cc_states::steps::{Activation, End, Event};

/// A run of a program, in a state of the program.
#[derive(Drop)]
pub struct Machine<'p> {
    pub program: &'p Program,
    /// The interrupt flag: whether handlers may enter.
    pub flag: bool,
    /// For each static object the values of its scalars, in order of path.
    pub statics: Vec<Vec<Value>>,
    /// The activations, the running one last.
    pub stack: Vec<Activation<'p>>,
    // The inputs that are left, the next one last.
    pub(crate) inputs: Vec<i128>,
    pub(crate) trace: Vec<Event>,
    pub(crate) opened: u64,
    pub(crate) end: End,
    pub ghost is_state: { ∥ IsState program.now (state_of_run (record { program = program; flag = flag; statics = statics; stack = stack; inputs = inputs; trace = trace; opened = opened; end = end })) ∥₁ },
}
