//! The bits of words that fields take.

ghost use Rattle.std.specs.Prelude.{◌≡◌};
ghost use Rattle.std.specs.List.{find};
ghost use Rattle.cc_plan_legal.specs.Candidates.{bits_of as bits_of_slot, bytes_of as bytes_of_slot};
ghost use Rattle.cc_plan_legal.specs.Legality.{end_of as end_of_field, overlap as overlap_of, first_overlapped as first_overlapped_of, most_bits as most_bits_of, bytes_in, bytes_within as bytes_within_of};

use crate::candidate::Candidate;
use cc_bins::Field;
use cc_program::num::at;

/// The bits of a slot's code.
pub(crate) fn bits_of(slots: &[Candidate], slot: u32) -> u32
    ensures { result ≡ bits_of_slot slots.now slot }
{
    match at(slots, slot as usize) {
        Some(candidate) => candidate.bits,
        None => 0,
    }
}

/// The bytes of a slot's scalar.
fn bytes_of(slots: &[Candidate], slot: u32) -> u32
    ensures { result ≡ bytes_of_slot slots.now slot }
{
    match at(slots, slot as usize) {
        Some(candidate) => candidate.bytes,
        None => 0,
    }
}

/// Where the bits of a field end.
pub(crate) fn end_of(slots: &[Candidate], field: &Field) -> u64
    ensures { result ≡ end_of_field slots.now field.now }
{
    u64::from(field.shift) + u64::from(bits_of(slots, field.slot))
}

/// Whether two fields have a bit in common.
fn overlap(slots: &[Candidate], a: &Field, b: &Field) -> bool
    ensures { result ≡ overlap_of slots.now a.now b.now }
{
    let start = u64::from(a.shift).max(u64::from(b.shift));
    let end = end_of(slots, a).min(end_of(slots, b));
    a.word == b.word && start < end
}

/// The first other slot's field that has a bit in common with a field.
pub(crate) fn first_overlapped(
    slots: &[Candidate],
    fields: &[Field],
    field: &Field,
) -> Option<Field>
    ensures { result ≡ first_overlapped_of slots.now fields.now field.now }
{
    let mut left = fields;
    while let [other, rest @ ..] = left {
        if other.slot != field.slot && overlap(slots, field, other) {
            return Some(*other);
        }
        left = rest;
    }
    None
}

/// The most bits of a slot's code in a word.
pub(crate) fn most_bits(slots: &[Candidate], fields: &[Field], word: u32) -> u32
    ensures { result ≡ most_bits_of slots.now word 0 fields.now }
{
    let mut most = 0;
    let mut left = fields;
    while let [field, rest @ ..] = left {
        if field.word == word {
            most = most.max(bits_of(slots, field.slot));
        }
        left = rest;
    }
    most
}

/// The bytes that the slots of a word take together. None where they are more than `most`.
pub(crate) fn bytes_within(
    slots: &[Candidate],
    fields: &[Field],
    word: u32,
    most: u8,
) -> Option<u64>
    ensures { result ≡ bytes_within_of (bytes_in slots.now word fields.now) most }
{
    let mut bytes = 0;
    let mut left = fields;
    while let [field, rest @ ..] = left {
        if field.word == word {
            bytes += u64::from(bytes_of(slots, field.slot));
        }
        if bytes > u64::from(most) {
            return None;
        }
        left = rest;
    }
    Some(bytes)
}
