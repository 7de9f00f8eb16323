//! Runs of programs.

use crate::activation::Activation;
use crate::event::{End, Event};
use cc_program::{Program, Value};

/// A run of a program, as it stands.
#[derive(Drop)]
pub struct Run<'p> {
    pub program: &'p Program,
    /// The interrupt flag: whether handlers may enter.
    pub flag: bool,
    /// For each static object the values of its scalars, in order of path.
    pub statics: Vec<Vec<Value>>,
    /// The activations, the running one last.
    pub stack: Vec<Activation<'p>>,
    /// The inputs that are left, the next one last.
    pub inputs: Vec<i128>,
    /// What could be seen of it so far, in order.
    pub trace: Vec<Event>,
    /// How many activations were opened so far.
    pub opened: u64,
    /// How it stands.
    pub end: End,
}
