//! What an expression is as an integer constant expression (C99 6.6).

ghost use Rattle.std.specs.Prelude.{◌≡◌};
ghost use Rattle.cc_typed.specs.CcSyntax.Folding.{result_constant as result_constant_of, unary_value as unary_value_of, unary_constant, binary_value as binary_value_of, binary_constant, converted_constant, is_true as is_true_of, truth_constant, settled as settled_of, both_constant, either_constant, chosen_constant};
ghost use Rattle.cc_operands.specs.View.{constant_view};

use cc_program::num::{BinOp, IntType, Target, UnOp, apply, apply_one, convert};
use cc_typed::{is_promoted, is_shift};

/// What an expression is as an integer constant expression.
#[derive(Clone, Copy)]
pub enum Constant {
    /// No integer constant expression.
    NoConstant,
    /// One with a value.
    Value(i128),
    /// One that traps.
    Traps,
}

fn result_constant(value: Option<i128>) -> Constant
    ensures { constant_view result ≡ result_constant_of value }
{
    match value {
        None => Constant::Traps,
        Some(n) => Constant::Value(n),
    }
}

#[tactic(auto, using(crate::proofs::Ranges::of_ranges))]
fn unary_value(op: UnOp, t: IntType, n: i128, target: &Target) -> Constant
    ensures { constant_view result ≡ unary_value_of target.now op t n }
{
    if is_promoted(t, target) && t.contains(n, target) {
        result_constant(apply_one(op, n, t, target))
    } else {
        Constant::NoConstant
    }
}

#[tactic(auto, using(crate::proofs::Ranges::of_ranges))]
fn binary_value(op: BinOp, t: IntType, m: i128, n: i128, target: &Target) -> Constant
    ensures { constant_view result ≡ binary_value_of target.now op t m n }
{
    if is_promoted(t, target) && t.contains(m, target) && (is_shift(op) || t.contains(n, target)) {
        result_constant(apply(op, m, n, t, target))
    } else {
        Constant::NoConstant
    }
}

/// Whether a condition of this value holds.
pub fn is_true(n: i128) -> bool
    ensures { result ≡ is_true_of n }
{
    !(n == 0)
}

impl Constant {
    /// What an operator makes of it.
    pub fn unary(self, op: UnOp, t: IntType, target: &Target) -> Constant
        ensures { constant_view result ≡ unary_constant target.now op t (constant_view self) }
    {
        match self {
            Constant::Value(n) => unary_value(op, t, n, target),
            Constant::NoConstant => Constant::NoConstant,
            Constant::Traps => Constant::Traps,
        }
    }

    /// What an operator makes of both.
    pub fn binary(self, op: BinOp, t: IntType, other: Constant, target: &Target) -> Constant
        ensures { constant_view result ≡ binary_constant target.now op t (constant_view self) (constant_view other) }
    {
        match (self, other) {
            (Constant::Value(m), Constant::Value(n)) => binary_value(op, t, m, n, target),
            (Constant::NoConstant, _) => Constant::NoConstant,
            (_, Constant::NoConstant) => Constant::NoConstant,
            _ => Constant::Traps,
        }
    }

    /// What a conversion makes of it.
    pub fn converted(self, t: IntType, target: &Target) -> Constant
        ensures { constant_view result ≡ converted_constant target.now t (constant_view self) }
    {
        match self {
            Constant::Value(n) => Constant::Value(convert(n, t, target)),
            Constant::NoConstant => Constant::NoConstant,
            Constant::Traps => Constant::Traps,
        }
    }

    fn truth(self) -> Constant
        ensures { constant_view result ≡ truth_constant (constant_view self) }
    {
        match self {
            Constant::Value(n) => Constant::Value(if is_true(n) { 1 } else { 0 }),
            Constant::NoConstant => Constant::NoConstant,
            Constant::Traps => Constant::Traps,
        }
    }

    /// The value, where this one, which is not evaluated, is a constant expression.
    fn settles(self, value: Constant) -> Constant
        ensures { constant_view result ≡ settled_of (constant_view self) (constant_view value) }
    {
        match self {
            Constant::NoConstant => Constant::NoConstant,
            Constant::Value(_) => value,
            Constant::Traps => value,
        }
    }

    /// What `&&` makes of both.
    pub fn both(self, other: Constant) -> Constant
        ensures { constant_view result ≡ both_constant (constant_view self) (constant_view other) }
    {
        match self {
            Constant::NoConstant => Constant::NoConstant,
            Constant::Value(n) => {
                if is_true(n) {
                    other.truth()
                } else {
                    other.settles(Constant::Value(0))
                }
            }
            Constant::Traps => other.settles(Constant::Traps),
        }
    }

    /// What `||` makes of both.
    pub fn either(self, other: Constant) -> Constant
        ensures { constant_view result ≡ either_constant (constant_view self) (constant_view other) }
    {
        match self {
            Constant::NoConstant => Constant::NoConstant,
            Constant::Value(n) => {
                if is_true(n) {
                    other.settles(Constant::Value(1))
                } else {
                    other.truth()
                }
            }
            Constant::Traps => other.settles(Constant::Traps),
        }
    }

    /// What `?:` makes of the arms.
    pub fn chosen(self, a: Constant, b: Constant) -> Constant
        ensures { constant_view result ≡ chosen_constant (constant_view self) (constant_view a) (constant_view b) }
    {
        match self {
            Constant::NoConstant => Constant::NoConstant,
            Constant::Value(n) => {
                if is_true(n) {
                    b.settles(a)
                } else {
                    a.settles(b)
                }
            }
            Constant::Traps => a.settles(b.settles(Constant::Traps)),
        }
    }
}
