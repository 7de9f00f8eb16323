ghost use Rattle.std.specs.Prelude.{◌≡◌};
ghost use Rattle.cc_num.specs.Integers.{represents_all};
ghost use Rattle.cc_num.specs.Promotions.{promoted, usual_of, rank_of, unsigned_of, mixed_of};

use crate::{IntType, Target};

/// The type to which the integer promotions bring a type (C99 6.3.1.1).
#[tactic(auto, unfolding(crate::specs::Promotions::promoted))]
pub fn promote(t: IntType, target: &Target) -> IntType
    ensures { result ≡ promoted t target.now }
{
    if rank(t) >= rank(IntType::Int) {
        t
    } else if fits_in(t, IntType::Int, target) {
        IntType::Int
    } else {
        IntType::UInt
    }
}

/// The common type of two operands by the usual arithmetic conversions (C99 6.3.1.8).
#[tactic(auto, unfolding(crate::specs::Promotions::usual_of))]
pub fn usual(a: IntType, b: IntType, target: &Target) -> IntType
    ensures { result ≡ usual_of a b target.now }
{
    let a = promote(a, target);
    let b = promote(b, target);
    match (a.is_signed(target), b.is_signed(target)) {
        (true, false) => mixed(a, b, target),
        (false, true) => mixed(b, a, target),
        _ if rank(a) < rank(b) => b,
        _ => a,
    }
}

/// The common type of a signed and an unsigned one.
fn mixed(signed: IntType, unsigned: IntType, target: &Target) -> IntType
    ensures { result ≡ mixed_of signed unsigned target.now }
{
    if rank(signed) <= rank(unsigned) {
        unsigned
    } else if fits_in(unsigned, signed, target) {
        signed
    } else {
        to_unsigned(signed)
    }
}

/// Whether a type has all values of another.
fn fits_in(small: IntType, large: IntType, target: &Target) -> bool
    ensures { result ≡ represents_all large small target.now }
{
    large.least(target) <= small.least(target) && small.most(target) <= large.most(target)
}

/// The conversion rank, by its order (C99 6.3.1.1).
fn rank(t: IntType) -> u8
    ensures { result ≡ rank_of t }
{
    match t {
        IntType::Bool => 0,
        IntType::Char | IntType::SChar | IntType::UChar => 1,
        IntType::Short | IntType::UShort => 2,
        IntType::Int | IntType::UInt => 3,
        IntType::Long | IntType::ULong => 4,
        IntType::LongLong | IntType::ULongLong => 5,
    }
}

/// The unsigned type that corresponds to a signed one (C99 6.2.5, 6).
fn to_unsigned(t: IntType) -> IntType
    ensures { result ≡ unsigned_of t }
{
    match t {
        IntType::SChar => IntType::UChar,
        IntType::Short => IntType::UShort,
        IntType::Int => IntType::UInt,
        IntType::Long => IntType::ULong,
        IntType::LongLong => IntType::ULongLong,
        other => other,
    }
}
