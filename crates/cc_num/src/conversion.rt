ghost use Rattle.std.specs.Prelude.{◌≡◌, ◌≤◌, ◌^◌, pos, neg_ℤ, ◌≤ℤ◌, ◌<ℤ◌};
ghost use Rattle.std.specs.Int.{int_rem_euclid};
ghost use Rattle.cc_num.specs.Integers.{converted, residue_from, truth_of};

use crate::{IntType, Target};

/// A value converted to an integer type (C99 6.3.1.2, 6.3.1.3): for `_Bool` whether it is not 0,
/// else modulo 2^w into the type's range, of signed types too.
pub fn convert(v: i128, to: IntType, target: &Target) -> i128
    ensures { result ≡ converted v to target.now }
{
    match to {
        IntType::Bool => truth(v),
        _ => residue(v, to.least(target), to.bits(target)),
    }
}

/// 1 for what is not 0.
fn truth(v: i128) -> i128
    ensures { result ≡ truth_of v }
{
    if v == 0 { 0 } else { 1 }
}

/// The number from `least` on, below `least` + 2^bits, that differs from `v` by a multiple of
/// 2^bits. The remainder is taken first, so that no difference leaves the 128 bits.
fn residue(v: i128, least: i128, bits: u32) -> i128
    requires low { neg_ℤ (pos (2 ^ 63)) ≤ℤ least }
    requires high { least ≤ℤ pos 0 }
    requires few { bits ≤ 64 }
    ensures { result ≡ residue_from least bits v }
{
    let first = remainder(v, bits);
    let second = remainder(first - least, bits);
    least + second
}

/// `v` modulo 2^bits.
fn remainder(v: i128, bits: u32) -> i128
    requires { bits ≤ 64 }
    ensures value { result ≡ int_rem_euclid v (pos (2 ^ bits)) }
    ensures low { pos 0 ≤ℤ result }
    ensures high { result <ℤ pos (2 ^ 64) }
{
    v.rem_euclid(1i128 << bits)
}
