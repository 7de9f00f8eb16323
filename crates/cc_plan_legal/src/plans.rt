//! What the lists of a plan keep.

ghost use Rattle.std.specs.Prelude.{◌≡◌, ◌==◌};
ghost use Rattle.std.specs.List.{list_any};
ghost use Rattle.cc_plan_legal.specs.Plans.{ascends, slots_of, are_in as are_in_of, are_used as are_used_of};

use cc_bins::{Field, Word};

/// Whether numbers ascend.
pub(crate) fn ascend(numbers: &[u32]) -> bool
    ensures { result ≡ ascends numbers.now }
{
    let mut least = 0;
    let mut left = numbers;
    while let [number, rest @ ..] = left {
        if u64::from(*number) < least {
            return false;
        }
        least = u64::from(*number) + 1;
        left = rest;
    }
    true
}

/// Whether the slots of fields ascend.
pub(crate) fn fields_ascend(fields: &[Field]) -> bool
    ensures { result ≡ ascends (slots_of fields.now) }
{
    let mut least = 0;
    let mut left = fields;
    while let [field, rest @ ..] = left {
        if u64::from(field.slot) < least {
            return false;
        }
        least = u64::from(field.slot) + 1;
        left = rest;
    }
    true
}

/// Whether the words of fields are there.
pub(crate) fn are_in(words: &[Word], fields: &[Field]) -> bool
    ensures { result ≡ are_in_of words.now fields.now }
{
    fields
        .iter()
        .all(|field| (field.word as usize) < words.len())
}

/// Whether a word of this number has a field.
fn has_word(fields: &[Field], word: u64) -> bool
    ensures { result ≡ list_any (λ field. field.word == word) fields.now }
{
    fields.iter().any(|field| u64::from(field.word) == word)
}

/// Whether each word has a field.
pub(crate) fn are_used(words: &[Word], fields: &[Field]) -> bool
    ensures { result ≡ are_used_of 0 words.now fields.now }
{
    let mut number: u64 = 0;
    let mut left = words;
    while let [_, rest @ ..] = left {
        if !has_word(fields, number) {
            return false;
        }
        number += 1;
        left = rest;
    }
    true
}
