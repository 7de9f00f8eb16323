//! Which operator a punctuator is.

ghost use Rattle.std.specs.Prelude.{◌≡◌};
ghost use Rattle.cc_operands.specs.Operators.{operator_of as operator_of_of, unary_operator_of as unary_operator_of_of, assigns_by as assigns_by_of};

use cc_lex::Mark;
use cc_program::num::BinOp;

/// A binary operator, by what its operands may be.
#[derive(Clone, Copy)]
pub enum Operator {
    /// Of two integers (C99 6.5.5, 6.5.7, 6.5.10 to 6.5.12).
    OfIntegers(BinOp),
    /// Of two integers, or of a pointer and an integer (C99 6.5.6).
    Sum,
    /// Of two integers, two pointers, or a pointer and an integer (C99 6.5.6).
    Difference,
    /// Of two integers, or two pointers (C99 6.5.8, 6.5.9).
    Comparison(BinOp),
    /// `&&` (C99 6.5.13).
    Both,
    /// `||` (C99 6.5.14).
    Either,
}

/// A unary operator on a value (C99 6.5.3.3).
#[derive(Clone, Copy)]
pub enum UnaryOperator {
    Plus,
    Minus,
    Complement,
    Not,
}

/// The binary operator that a punctuator is.
pub fn operator_of(mark: Mark) -> Option<Operator>
    ensures { result ≡ operator_of_of mark }
{
    match mark {
        Mark::Star => Some(Operator::OfIntegers(BinOp::Mul)),
        Mark::Slash => Some(Operator::OfIntegers(BinOp::Div)),
        Mark::Percent => Some(Operator::OfIntegers(BinOp::Rem)),
        Mark::Amp => Some(Operator::OfIntegers(BinOp::And)),
        Mark::Bar => Some(Operator::OfIntegers(BinOp::Or)),
        Mark::Caret => Some(Operator::OfIntegers(BinOp::Xor)),
        Mark::Shl => Some(Operator::OfIntegers(BinOp::Shl)),
        Mark::Shr => Some(Operator::OfIntegers(BinOp::Shr)),
        Mark::Plus => Some(Operator::Sum),
        Mark::Minus => Some(Operator::Difference),
        Mark::Lt => Some(Operator::Comparison(BinOp::Lt)),
        Mark::Le => Some(Operator::Comparison(BinOp::Le)),
        Mark::Gt => Some(Operator::Comparison(BinOp::Gt)),
        Mark::Ge => Some(Operator::Comparison(BinOp::Ge)),
        Mark::EqEq => Some(Operator::Comparison(BinOp::Eq)),
        Mark::NotEq => Some(Operator::Comparison(BinOp::Ne)),
        Mark::AndAnd => Some(Operator::Both),
        Mark::OrOr => Some(Operator::Either),
        _ => None,
    }
}

/// The unary operator on a value that a punctuator is.
pub fn unary_operator_of(mark: Mark) -> Option<UnaryOperator>
    ensures { result ≡ unary_operator_of_of mark }
{
    match mark {
        Mark::Plus => Some(UnaryOperator::Plus),
        Mark::Minus => Some(UnaryOperator::Minus),
        Mark::Tilde => Some(UnaryOperator::Complement),
        Mark::Bang => Some(UnaryOperator::Not),
        _ => None,
    }
}

/// The operator that an assignment applies first; `=` applies none.
pub fn assigns_by(mark: Mark) -> Option<BinOp>
    ensures { result ≡ assigns_by_of mark }
{
    match mark {
        Mark::StarAssign => Some(BinOp::Mul),
        Mark::SlashAssign => Some(BinOp::Div),
        Mark::PercentAssign => Some(BinOp::Rem),
        Mark::PlusAssign => Some(BinOp::Add),
        Mark::MinusAssign => Some(BinOp::Sub),
        Mark::ShlAssign => Some(BinOp::Shl),
        Mark::ShrAssign => Some(BinOp::Shr),
        Mark::AndAssign => Some(BinOp::And),
        Mark::XorAssign => Some(BinOp::Xor),
        Mark::OrAssign => Some(BinOp::Or),
        _ => None,
    }
}
