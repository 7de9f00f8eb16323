//! What a prefix operator works on (C99 6.5.3).

ghost use Rattle.std.specs.Prelude.{◌≡◌};
ghost use Rattle.cc_typed_terms.specs.Operators.{prefix_of as prefix_of_mark, is_minus as is_minus_of};

use cc_scopes::lex::Mark;

/// A prefix operator, by what it takes its operand as.
#[derive(Clone, Copy)]
pub enum Prefix {
    /// `*`: a pointer, or an integer constant that is cast to one.
    Star,
    /// `&`: what the operand designates.
    Amp,
    /// `++`, and `--` where the flag is set: what the operand designates.
    Step(bool),
    /// Any other: the operand's value.
    OnValue,
}

/// What the operator that a punctuator is takes its operand as.
pub fn prefix_of(mark: Mark) -> Prefix
    ensures { result ≡ prefix_of_mark mark }
{
    match mark {
        Mark::Star => Prefix::Star,
        Mark::Amp => Prefix::Amp,
        Mark::PlusPlus => Prefix::Step(false),
        Mark::MinusMinus => Prefix::Step(true),
        _ => Prefix::OnValue,
    }
}

/// Whether a punctuator is `--`.
pub fn is_minus(mark: Mark) -> bool
    ensures { result ≡ is_minus_of mark }
{
    match mark {
        Mark::MinusMinus => true,
        _ => false,
    }
}
