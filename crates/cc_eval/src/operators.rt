//! What an expression of each kind makes of its operands.

use cc_program::num::{BinOp, IntType, UnOp};

/// What has one operand.
#[derive(Clone, Copy)]
pub enum OneOperand {
    Operator(UnOp, IntType),
    Conversion(IntType),
    /// `irq_restore`.
    Restore,
}

/// What has two operands.
#[derive(Clone, Copy)]
pub enum TwoOperands {
    Operator(BinOp, IntType),
    /// A pointer that is moved, back or on.
    Movement(bool),
    /// The difference of two pointers.
    Difference,
    /// A comparison of two pointers.
    Comparison(BinOp),
}

/// What has a place.
#[derive(Clone, Copy)]
pub enum AtPlace {
    Load,
    Address,
    /// `a++`, or `a--`.
    Step(bool),
}

/// What has a place and an operand.
#[derive(Clone, Copy)]
pub enum ToPlace {
    Assign,
    Change(BinOp, IntType),
}
