//! Integers of a target: the values of types, conversions, operators, promotions and bits.

use cases_script::Page;
use cc_program::num::{
    BinOp, IntType, Target, UnOp, apply, apply_one, bits_for, convert, promote, usual,
};
use std::alloc::Global;

/// What a case gives.
#[derive(Clone, Copy)]
enum Answer {
    Number(i128),
    Trap,
    Type(IntType),
    /// How wide a type is, and its values.
    Values(IntType),
}

/// A target whose `int` has so many bytes: one of 16 bits with a signed `char`, one of 32 with an unsigned.
pub fn target_of(int_bytes: &str) -> Option<Target> {
    match int_bytes {
        "2" => Some(Target {
            int_bytes: 2,
            pointer_bytes: 2,
            char_signed: true,
            align_max: 1,
            atomic_bytes: 1,
        }),
        "4" => Some(Target {
            int_bytes: 4,
            pointer_bytes: 4,
            char_signed: false,
            align_max: 4,
            atomic_bytes: 4,
        }),
        _ => None,
    }
}

fn number(word: &str) -> Option<i128> {
    word.parse().ok()
}

fn type_of(word: &str) -> Option<IntType> {
    match word {
        "Bool" => Some(IntType::Bool),
        "Char" => Some(IntType::Char),
        "SChar" => Some(IntType::SChar),
        "UChar" => Some(IntType::UChar),
        "Short" => Some(IntType::Short),
        "UShort" => Some(IntType::UShort),
        "Int" => Some(IntType::Int),
        "UInt" => Some(IntType::UInt),
        "Long" => Some(IntType::Long),
        "ULong" => Some(IntType::ULong),
        "LongLong" => Some(IntType::LongLong),
        "ULongLong" => Some(IntType::ULongLong),
        _ => None,
    }
}

fn operator(word: &str) -> Option<BinOp> {
    match word {
        "+" => Some(BinOp::Add),
        "-" => Some(BinOp::Sub),
        "*" => Some(BinOp::Mul),
        "/" => Some(BinOp::Div),
        "%" => Some(BinOp::Rem),
        "&" => Some(BinOp::And),
        "|" => Some(BinOp::Or),
        "^" => Some(BinOp::Xor),
        "<<" => Some(BinOp::Shl),
        ">>" => Some(BinOp::Shr),
        "<" => Some(BinOp::Lt),
        "<=" => Some(BinOp::Le),
        ">" => Some(BinOp::Gt),
        ">=" => Some(BinOp::Ge),
        "==" => Some(BinOp::Eq),
        "!=" => Some(BinOp::Ne),
        _ => None,
    }
}

fn prefix(word: &str) -> Option<UnOp> {
    match word {
        "-" => Some(UnOp::Neg),
        "~" => Some(UnOp::Not),
        "!" => Some(UnOp::Lnot),
        _ => None,
    }
}

fn converted(value: &str, to: &str, target: &Target) -> Option<Answer> {
    Some(Answer::Number(convert(number(value)?, type_of(to)?, target)))
}

fn result(value: Option<i128>) -> Answer {
    match value {
        Some(value) => Answer::Number(value),
        None => Answer::Trap,
    }
}

fn applied(a: &str, op: &str, b: &str, t: &str, target: &Target) -> Option<Answer> {
    let (a, op, b, t) = (number(a)?, operator(op)?, number(b)?, type_of(t)?);
    if promote(t, target) != t || !t.contains(a, target) {
        return None;
    }
    if !op.is_shift() && !t.contains(b, target) {
        return None;
    }
    Some(result(apply(op, a, b, t, target)))
}

fn applied_to_one(op: &str, a: &str, t: &str, target: &Target) -> Option<Answer> {
    let (op, a, t) = (prefix(op)?, number(a)?, type_of(t)?);
    if promote(t, target) != t || !t.contains(a, target) {
        return None;
    }
    Some(result(apply_one(op, a, t, target)))
}

fn promoted(t: &str, target: &Target) -> Option<Answer> {
    Some(Answer::Type(promote(type_of(t)?, target)))
}

fn common(a: &str, b: &str, target: &Target) -> Option<Answer> {
    Some(Answer::Type(usual(type_of(a)?, type_of(b)?, target)))
}

fn bits(count: &str) -> Option<Answer> {
    let count: u128 = count.parse().ok()?;
    if count == 0 {
        return None;
    }
    Some(Answer::Number(i128::from(bits_for(count))))
}

fn of_three(a: &str, word: &str, b: &str, target: &Target) -> Option<Answer> {
    match word {
        "to" => converted(a, b, target),
        "with" => common(a, b, target),
        "of" => Some(Answer::Values(type_of(b)?)),
        "for" => bits(b),
        _ => None,
    }
}

/// What the words of a case give, if they have a meaning and ask for no operand that its type has not.
fn answered(words: &[&str], target: &Target) -> Option<Answer> {
    match words {
        [_, t] => promoted(t, target),
        [a, word, b] => of_three(a, word, b, target),
        [op, a, _, t] => applied_to_one(op, a, t, target),
        [a, op, b, _, t] => applied(a, op, b, t, target),
        _ => None,
    }
}

fn write_values(page: &mut Page, t: IntType, target: &Target) {
    page.show(t.bytes(target));
    page.put(" bytes, ");
    page.show(t.bits(target));
    page.put(" bits, ");
    page.put(if t.is_signed(target) {
        "signed, "
    } else {
        "unsigned, "
    });
    page.show(t.least(target));
    page.put(" to ");
    page.show(t.most(target));
}

/// Writes what a case gives.
pub fn write_outcome(alloc: Global, page: &mut Page, target: &Target, case: &str) {
    page.put(" ");
    let Ok(words) = case.split(' ').collect::<Vec<&str>>(alloc) else {
        return page.put("no memory");
    };
    match answered(&words, target) {
        Some(Answer::Number(value)) => page.show(value),
        Some(Answer::Trap) => page.put("trap"),
        Some(Answer::Type(t)) => page.debug(t),
        Some(Answer::Values(t)) => write_values(page, t, target),
        None => page.put("unclear"),
    }
}
