//! The numbers that fields write.

ghost use Rattle.std.specs.Prelude.{◌≡◌, ◌≤◌, ◌-◌, ◌^◌, min, length, IfSome, IsTrue};
ghost use Rattle.std.specs.List.{list_all};
ghost use Rattle.cc_words.specs.Names.{is_digit};
ghost use Rattle.cc_rows.specs.Numbers.{is_number as is_number_field, number_in as number_in_field, has_sign as has_sign_field, negative_in as negative_in_field, positive_in as positive_in_field, signed_in as signed_in_field, value_of};

fn are_digits(field: &[u8]) -> bool
    ensures { result ≡ list_all is_digit field.now }
{
    field.iter().all(|b| matches!(b, b'0'..=b'9'))
}

/// Whether a field is decimal digits without a leading zero.
fn is_number(field: &[u8]) -> bool
    ensures { result ≡ is_number_field field.now }
{
    match field {
        [] => false,
        [digit] => matches!(digit, b'0'..=b'9'),
        [first, rest @ ..] => matches!(first, b'1'..=b'9') && are_digits(rest),
    }
}

/// The number that digits write, or the greatest of its type where that is less.
#[tactic(auto, using(crate::proofs::NumberLemmas::of_values))]
fn value(digits: &[u8]) -> u128
    ensures { result ≡ min (value_of digits.now) (2 ^ 128 - 1) }
{
    let mut number: u128 = 0;
    for digit in digits {
        number = number
            .saturating_mul(10)
            .saturating_add(u128::from(digit.saturating_sub(b'0')));
    }
    number
}

/// The number of a field that writes one within these bounds: decimal digits without a sign and without a leading
/// zero.
#[tactic(auto, unfolding(crate::specs::Numbers::number_in))]
pub fn number_in(least: u64, most: u64, field: &[u8]) -> Option<u64>
    ensures value { result ≡ number_in_field least most field.now }
    ensures bounds { IfSome result (λ n. (least ≤ n) × (n ≤ most)) }
{
    if !is_number(field) {
        return None;
    }
    let number = value(field);
    if u128::from(least) <= number && number <= u128::from(most) {
        Some(number as u64)
    } else {
        None
    }
}

/// Whether a field begins with `-`.
fn has_sign(field: &[u8]) -> bool
    ensures value { result ≡ has_sign_field field.now }
    ensures some { IsTrue result → 1 ≤ length field.now }
{
    match field {
        [] => false,
        [first, ..] => *first == b'-',
    }
}

fn negative_in(digits: &[u8]) -> Option<i128>
    ensures { result ≡ negative_in_field digits.now }
{
    match number_in(0, 1 << 63, digits) {
        Some(n) => Some(-i128::from(n)),
        None => None,
    }
}

fn positive_in(digits: &[u8]) -> Option<i128>
    ensures { result ≡ positive_in_field digits.now }
{
    match number_in(0, 0xffff_ffff_ffff_ffff, digits) {
        Some(n) => Some(i128::from(n)),
        None => None,
    }
}

/// The number of a field that writes one of 64 bits, with a `-` in front or without: at least -2^63 and below 2^64.
pub fn signed_in(field: &[u8]) -> Option<i128>
    ensures { result ≡ signed_in_field field.now }
{
    if has_sign(field) {
        negative_in(&field[1..])
    } else {
        positive_in(field)
    }
}
