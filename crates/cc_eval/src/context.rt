//! Where full expressions are worked.

use cc_program::{Func, Program};

/// An activation of a function of a program.
#[derive(Clone, Copy)]
pub struct Context<'p> {
    pub program: &'p Program,
    /// The number of the activation.
    pub number: u64,
    /// The id of the function.
    pub id: u32,
    pub func: &'p Func,
}
