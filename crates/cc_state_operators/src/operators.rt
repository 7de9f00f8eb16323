//! Kinds of operators, by their operands.

use cc_program::num::{BinOp, IntType, UnOp};

/// What is made of one operand.
#[derive(Clone, Copy)]
pub enum OneOperand {
    Operator(UnOp, IntType),
    Conversion(IntType),
}

/// What is made of two operands.
#[derive(Clone, Copy)]
pub enum TwoOperands {
    Operator(BinOp, IntType),
    /// A pointer moved by an integer, back where it is set.
    Movement(bool),
    Difference,
    Comparison(BinOp),
    Both,
    Either,
}

/// What two pointers give.
#[derive(Clone, Copy)]
pub(crate) enum Relation {
    Difference,
    Comparison(BinOp),
}
