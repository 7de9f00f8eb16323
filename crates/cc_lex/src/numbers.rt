//! Numbers (C99 6.4.4.1, 6.4.8).

ghost use Rattle.std.specs.Prelude.{◌≡◌, ◌+◌, ◌≤◌, ◌<◌, ◌^◌, ◌==◌, length, min};
ghost use Rattle.std.specs.List.{prefix_len};
ghost use Rattle.cc_lex.specs.Numbers.{digit_value as value_of_digit, is_digit_in as is_digit_of, greatest as greatest_of};
ghost use Rattle.cc_lex.specs.ScanParts.{goes_on as continues, value_of, base_of as base_and_start, suffix_of as unsigned_and_longs, valued as constant, number_of as number_of_run};
ghost use Rattle.cc_lex.specs.Scan.{run_len as len_of_run};

use crate::token::Suffix;
use cc_words::is_letter_or_digit;

/// Whether a run goes on with a byte behind another.
fn goes_on(before: u8, b: u8) -> bool
    ensures { result ≡ continues before b }
{
    is_letter_or_digit(b)
        || b == b'.'
        || (matches!(b, b'+' | b'-') && matches!(before, b'e' | b'E' | b'p' | b'P'))
}

/// How many bytes of the text belong to the run whose last byte stands before it.
#[tactic(auto, using(crate::proofs::Loops::of_runs))]
pub fn run_len(before: u8, text: &[u8]) -> usize
    ensures value { result ≡ len_of_run before text.now }
    ensures within { result ≤ length text.now }
{
    let mut last = before;
    for (n, b) in text.iter().enumerate() {
        if !goes_on(last, *b) {
            return n;
        }
        last = *b;
    }
    text.len()
}

/// The value of a digit in any base up to 16; 16 where the byte is none.
pub fn digit_value(b: u8) -> u8
    ensures { result ≡ value_of_digit b }
{
    match b {
        b'0'..=b'9' => b - b'0',
        b'a'..=b'f' => b - b'a' + 10,
        b'A'..=b'F' => b - b'A' + 10,
        _ => 16,
    }
}

/// How many digits of the base the text begins with.
pub fn digits_len(base: u8, text: &[u8]) -> usize
    ensures value { result ≡ prefix_len (is_digit_of base) text.now }
    ensures within { result ≤ length text.now }
{
    text.iter().take_while(|b| digit_value(**b) < base).count()
}

/// The value of digits, or 2^64 where it is more.
#[tactic(auto, using(crate::proofs::Loops::capped_more), unfolding(crate::specs::ScanParts::value_of))]
pub fn capped_value(base: u8, digits: &[u8]) -> u128
    requires positive { 0 < base }
    requires small { base ≤ 16 }
    ensures { result ≡ min (value_of base digits.now) (2 ^ 64) }
{
    let cap: u128 = 1 << 64;
    let mut value: u128 = 0;
    for b in digits {
        value = (value * u128::from(base) + u128::from(digit_value(*b))).min(cap);
    }
    value
}

/// The base of a run, and how many bytes of it come before the digits.
fn base_of(run: &[u8]) -> (u8, usize)
    ensures value { result ≡ base_and_start run.now }
    ensures start { result.1 ≤ length run.now }
    ensures small { result.0 ≤ 16 }
    ensures positive { 0 < result.0 }
{
    match run {
        [b'0', b'x' | b'X', ..] => (16, 2),
        [b'0', b'b' | b'B', ..] => (2, 2),
        [b'0', ..] => (8, 0),
        _ => (10, 0),
    }
}

/// The suffix of an integer constant: whether u is there, and how many l.
fn suffix_of(tail: &[u8]) -> Option<(bool, u8)>
    ensures { result ≡ unsigned_and_longs tail.now }
{
    match tail {
        [] => Some((false, 0)),
        [b'u' | b'U'] => Some((true, 0)),
        [b'l' | b'L'] => Some((false, 1)),
        [b'u' | b'U', b'l' | b'L'] | [b'l' | b'L', b'u' | b'U'] => Some((true, 1)),
        b"ll" | b"LL" => Some((false, 2)),
        [b'u' | b'U', b'l', b'l'] | [b'u' | b'U', b'L', b'L'] => Some((true, 2)),
        [b'l', b'l', b'u' | b'U'] | [b'L', b'L', b'u' | b'U'] => Some((true, 2)),
        _ => None,
    }
}

/// The greatest value of an integer constant.
fn greatest(decimal: bool, unsigned: bool) -> u64
    ensures { result ≡ greatest_of decimal unsigned }
{
    if decimal && !unsigned {
        i64::MAX as u64
    } else {
        u64::MAX
    }
}

/// The integer constant of these digits and this suffix, where it is in range.
fn valued(base: u8, digits: &[u8], unsigned: bool, longs: u8) -> Option<(u64, Suffix)>
    requires positive { 0 < base }
    requires small { base ≤ 16 }
    ensures { result ≡ constant (base == 10) (value_of base digits.now) (Some (unsigned, longs)) }
{
    let decimal = base == 10;
    let value = capped_value(base, digits);
    if value > u128::from(greatest(decimal, unsigned)) {
        return None;
    }
    let suffix = Suffix {
        decimal,
        unsigned,
        longs,
    };
    Some((value as u64, suffix))
}

/// The integer constant that a run is: its value, and what decides its type.
#[tactic(auto, unfolding(crate::specs::ScanParts::number_of))]
pub fn number_of(run: &[u8]) -> Option<(u64, Suffix)>
    ensures { result ≡ number_of_run run.now }
{
    let (base, start) = base_of(run);
    let behind = &run[start..];
    let len = digits_len(base, behind);
    if len == 0 {
        return None;
    }
    let (unsigned, longs) = suffix_of(&behind[len..])?;
    valued(base, &behind[..len], unsigned, longs)
}
