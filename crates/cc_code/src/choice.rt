//! Which coding some values have.

ghost use Rattle.std.specs.Prelude.{◌≡◌, ◌≤◌, ◌^◌, ◌+ℤ◌, ◌≤ℤ◌, ◌<ℤ◌, ◌↔◌, ℤ, pos, int_lt, nat_lt, neg_ℤ, false, None as NoneOf, IfSome};
ghost use Rattle.cc_code.specs.Codings.{by_ends as by_ends_of, kind_by as kind_by_of, kind_of as kind_of_values, AreBitsFor, IsCodingOf};
ghost use Rattle.cc_code.specs.Members.{count_of as count_of_values, has_coding as has_coding_of};

use crate::kinds::Coding;
use crate::members::{count_of, has_coding};
use cc_lattice::IntDomain;
use cc_places::Abs;
use cc_program::num::bits_for;
use cc_sets::Vals;

/// Whether a number has no more than so many bits.
fn has_bits(n: u128, bits: u32) -> bool
    ensures { result ≡ nat_lt n (2 ^ bits) }
{
    bits >= u128::BITS || n >> bits == 0
}

/// Whether a number has no more than so many bits when it is counted from `low` on.
fn is_within(n: i128, low: i128, bits: u32) -> bool
    requires least { neg_ℤ (pos (2 ^ 64)) ≤ℤ low }
    requires order { low ≤ℤ n }
    requires most { n <ℤ pos (2 ^ 64) }
    ensures { result ≡ int_lt n (low +ℤ pos (2 ^ bits)) }
{
    has_bits((n - low) as u128, bits)
}

/// The kind of coding of numbers from `low` to `high`, with codes of so many bits.
fn by_ends(low: i128, high: i128, bits: u32) -> Coding
    requires least { neg_ℤ (pos (2 ^ 64)) ≤ℤ low }
    requires order { low ≤ℤ high }
    requires most { high <ℤ pos (2 ^ 64) }
    ensures { result ≡ by_ends_of bits low high }
{
    if low >= 0 && is_within(high, 0, bits) {
        Coding::Direct
    } else if is_within(high, low, bits) {
        Coding::Biased(low)
    } else {
        Coding::Table
    }
}

/// The kind of coding of some values that are more than one, or whose codes have some bits.
fn kind_by(values: &Abs<Vals>, bits: u32) -> Coding
    ensures { result ≡ kind_by_of bits values.now }
{
    match values {
        Abs::Ints(numbers) => match numbers.bounds() {
            None => Coding::Table,
            Some((low, high)) => by_ends(low, high, bits),
        },
        Abs::Addrs(_) => Coding::Table,
    }
}

/// The kind of coding of some values, with codes of so many bits.
pub fn kind_of(values: &Abs<Vals>, bits: u32) -> Coding
    ensures { result ≡ kind_of_values values.now bits }
{
    if count_of(values) == 1 && bits == 0 {
        Coding::Const
    } else {
        kind_by(values, bits)
    }
}

/// The bits of a code, which are no fewer than `least_bits`.
fn bits_of(values: &Abs<Vals>, least_bits: u32) -> u32
    requires { 1 ≤ count_of_values values.now }
    ensures { AreBitsFor values.now least_bits result }
{
    least_bits.max(bits_for(count_of(values)))
}

/// The coding of some values, and the bits of a code, which are no fewer than `least_bits`. There is none exactly for a set of
/// addresses that is not exact, or has an automatic one.
pub fn coding(values: &Abs<Vals>, least_bits: u32) -> Option<(Coding, u32)>
    requires filled { 1 ≤ count_of_values values.now }
    ensures none { (result ≡ NoneOf) ↔ (has_coding_of values.now ≡ false) }
    ensures coding { IfSome result (λ it. IsCodingOf values.now least_bits it) }
{
    if !has_coding(values) {
        return None;
    }
    let bits = bits_of(values, least_bits);
    Some((kind_of(values, bits), bits))
}
