//! A test of what an expression gives.

use cc_program::Expr;
use cc_rules_flows::state_values::Context;

/// What is tested of a value.
#[derive(Clone, Copy)]
pub enum Test<'a> {
    /// That it is true, or false: the condition of an `if`.
    Is(bool),
    /// That it equals a label of a `switch`.
    Equals(i128),
    /// That it equals none of some labels, where control goes to `default` or behind the `switch`.
    Differs(&'a [i128]),
}

/// A test of an expression, where the registers of its function have some sets.
pub struct Tested<'p, I> {
    pub context: &'p Context<'p, I>,
    pub expression: &'p Expr,
    pub test: Test<'p>,
}
