//! What states are held against.

use cc_flow_sound::flow::Flow;
use cc_program::Program;
use cc_program::num::List;
use cc_state_reads::state_facts::{Facts, Key, PointFact};

/// What states are held against.
#[derive(Drop)]
pub struct Basis<'a, I> {
    /// A program in normal form.
    pub program: &'a Program,
    pub flow: &'a Flow,
    /// Facts of its shape.
    pub facts: &'a Facts<I>,
    /// Its tracked cells.
    pub tracked: &'a [u32],
    /// For each static object the key of each of its scalars, in order of path.
    pub objects: &'a [List<Key>],
}

/// A point that is reached.
#[derive(Drop)]
pub struct Reached<'a, I> {
    pub number: usize,
    /// What is known there.
    pub fact: &'a PointFact<I>,
    /// The registers of its function.
    pub registers: &'a [u32],
}
