//! How long the code of a slot's values is, and whether that keeps the slot from being coded.

ghost use Rattle.std.specs.Prelude.{◌≡◌, ◌≤◌};
ghost use Rattle.cc_code.specs.Members.{count_of as count_of_values, has_coding};
ghost use Rattle.cc_plan_legal.specs.Short.{element_bits as element_bits_of, packed_bytes as packed_bytes_of};
ghost use Rattle.cc_slots.specs.Codes.{is_wide_by};
ghost use Rattle.cc_slots.specs.Reasons.{AreBits};
ghost use Rattle.cc_slots_types.specs.Slots.{least_bits_of};

use cc_code::{coding, count_of};
use cc_sets::Vals;
use cc_state_points::places::Abs;
use cc_state_points::state_facts::Key;

/// Whether some values have a code, and how many bits it has.
#[derive(Clone, Copy)]
pub struct Code {
    pub is_there: bool,
    /// Of values without a code as many as a scalar has.
    pub bits: u32,
}

fn least_bits(key: Key) -> u32
    ensures { result ≡ least_bits_of key }
{
    match key {
        Key::Member(_, _) => 1,
        Key::Object(_) | Key::Local(_, _) => 0,
    }
}

/// Whether no values have a code.
fn is_exact(values: &Abs<Vals>) -> bool
    requires { count_of_values values.now ≡ 0 }
    ensures { result ≡ has_coding values.now }
{
    match values {
        Abs::Ints(_) => true,
        Abs::Addrs(places) => places.is_exact,
    }
}

/// The code of no values: it has as few bits as a code may have.
fn code_of_none(key: Key, values: &Abs<Vals>, bytes: u32) -> Code
    requires bytes { bytes ≤ 8 }
    requires none { count_of_values values.now ≡ 0 }
    ensures is_there { result.is_there ≡ has_coding values.now }
    ensures bits { AreBits key values.now bytes result.bits }
{
    if is_exact(values) {
        Code {
            is_there: true,
            bits: least_bits(key),
        }
    } else {
        Code {
            is_there: false,
            bits: 8 * bytes,
        }
    }
}

/// The code of the values of a slot whose scalars have so many bytes.
pub fn code_of(key: Key, values: &Abs<Vals>, bytes: u32) -> Code
    requires { bytes ≤ 8 }
    ensures is_there { result.is_there ≡ has_coding values.now }
    ensures bits { AreBits key values.now bytes result.bits }
{
    if count_of(values) == 0 {
        return code_of_none(key, values, bytes);
    }
    match coding(values, least_bits(key)) {
        None => Code {
            is_there: false,
            bits: 8 * bytes,
        },
        Some(found) => Code {
            is_there: true,
            bits: found.1,
        },
    }
}

/// The bits that an element of a packed array takes.
fn element_bits(bits: u32) -> u32
    ensures value { result ≡ element_bits_of bits }
    ensures most { result ≤ 16 }
{
    match bits {
        0..=2 => bits,
        3 | 4 => 4,
        5..=8 => 8,
        _ => 16,
    }
}

fn packed_bytes(bits: u32, count: u32) -> u64
    ensures { result ≡ packed_bytes_of bits count }
{
    (u64::from(count) * u64::from(element_bits(bits)) + 7) / 8
}

/// Whether its code keeps a slot from being coded: it has none, or none that is shorter than its scalar; or as an array it takes as many
/// bytes with its code.
pub fn is_wide(code: Code, is_array: bool, count: u32, bytes: u32) -> bool
    requires { bytes ≤ 8 }
    ensures { result ≡ is_wide_by code.is_there is_array count bytes code.bits }
{
    !code.is_there
        || 8 * bytes <= code.bits
        || 16 < code.bits
        || (is_array && u64::from(count) * u64::from(bytes) <= packed_bytes(code.bits, count))
}
