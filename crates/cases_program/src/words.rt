//! What words stand for.

use cc_program::num::{BinOp, IntType, List, Name};
use std::alloc::Global;

/// The parts of a word in front of its first colon and behind it.
pub fn split(word: &str) -> (&str, &str) {
    word.split_once(':').unwrap_or((word, ""))
}

/// A name.
pub fn name(alloc: Global, text: &str) -> Option<Name> {
    Some(List::of(Vec::from_slice(alloc, text.as_bytes()).ok()?))
}

pub fn int_type(word: &str) -> Option<IntType> {
    match word {
        "bool" => Some(IntType::Bool),
        "char" => Some(IntType::Char),
        "schar" => Some(IntType::SChar),
        "uchar" => Some(IntType::UChar),
        "short" => Some(IntType::Short),
        "ushort" => Some(IntType::UShort),
        "int" => Some(IntType::Int),
        "uint" => Some(IntType::UInt),
        "long" => Some(IntType::Long),
        "ulong" => Some(IntType::ULong),
        "llong" => Some(IntType::LongLong),
        "ullong" => Some(IntType::ULongLong),
        _ => None,
    }
}

pub fn bin_op(word: &str) -> Option<BinOp> {
    match word {
        "add" => Some(BinOp::Add),
        "sub" => Some(BinOp::Sub),
        "mul" => Some(BinOp::Mul),
        "div" => Some(BinOp::Div),
        "rem" => Some(BinOp::Rem),
        "and" => Some(BinOp::And),
        "or" => Some(BinOp::Or),
        "xor" => Some(BinOp::Xor),
        "shl" => Some(BinOp::Shl),
        "shr" => Some(BinOp::Shr),
        "lt" => Some(BinOp::Lt),
        "le" => Some(BinOp::Le),
        "gt" => Some(BinOp::Gt),
        "ge" => Some(BinOp::Ge),
        "eq" => Some(BinOp::Eq),
        "ne" => Some(BinOp::Ne),
        _ => None,
    }
}

/// `OPERATOR:TYPE`.
pub fn operation(text: &str) -> Option<(BinOp, IntType)> {
    let (op, t) = split(text);
    let op = bin_op(op)?;
    Some((op, int_type(t)?))
}
