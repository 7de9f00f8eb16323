//! The words of a case: types, operators and targets.

ghost use Rattle.std.specs.Prelude.{◌≡◌, true, IfSome};
ghost use Rattle.cc_lattice.specs.Domains.{is_comparison};

use cc_program::num::{BinOp, IntType, Target, UnOp};

/// A target whose `int` has two bytes, and whose plain `char` has no sign.
pub fn small_target() -> Target {
    Target {
        int_bytes: 2,
        pointer_bytes: 2,
        char_signed: false,
        align_max: 1,
        atomic_bytes: 1,
    }
}

/// A target whose `int` has so many bytes, and whose plain `char` has no sign.
pub fn target_of(int_bytes: &str) -> Option<Target> {
    match int_bytes {
        "2" => Some(small_target()),
        "4" => Some(Target {
            int_bytes: 4,
            pointer_bytes: 4,
            char_signed: false,
            align_max: 4,
            atomic_bytes: 4,
        }),
        _ => None,
    }
}

pub fn type_of(word: &str) -> Option<IntType> {
    match word {
        "Bool" => Some(IntType::Bool),
        "Char" => Some(IntType::Char),
        "SChar" => Some(IntType::SChar),
        "UChar" => Some(IntType::UChar),
        "Short" => Some(IntType::Short),
        "UShort" => Some(IntType::UShort),
        "Int" => Some(IntType::Int),
        "UInt" => Some(IntType::UInt),
        "Long" => Some(IntType::Long),
        "ULong" => Some(IntType::ULong),
        "LongLong" => Some(IntType::LongLong),
        "ULongLong" => Some(IntType::ULongLong),
        _ => None,
    }
}

pub fn operator_of(word: &str) -> Option<BinOp> {
    match word {
        "Add" => Some(BinOp::Add),
        "Sub" => Some(BinOp::Sub),
        "Mul" => Some(BinOp::Mul),
        "Div" => Some(BinOp::Div),
        "Rem" => Some(BinOp::Rem),
        "And" => Some(BinOp::And),
        "Or" => Some(BinOp::Or),
        "Xor" => Some(BinOp::Xor),
        "Shl" => Some(BinOp::Shl),
        "Shr" => Some(BinOp::Shr),
        _ => comparison_of(word),
    }
}

pub fn comparison_of(word: &str) -> Option<BinOp>
    ensures { IfSome result (λ test. is_comparison test ≡ true) }
{
    match word {
        "Lt" => Some(BinOp::Lt),
        "Le" => Some(BinOp::Le),
        "Gt" => Some(BinOp::Gt),
        "Ge" => Some(BinOp::Ge),
        "Eq" => Some(BinOp::Eq),
        "Ne" => Some(BinOp::Ne),
        _ => None,
    }
}

pub fn prefix_of(word: &str) -> Option<UnOp> {
    match word {
        "Neg" => Some(UnOp::Neg),
        "Not" => Some(UnOp::Not),
        "Lnot" => Some(UnOp::Lnot),
        _ => None,
    }
}
