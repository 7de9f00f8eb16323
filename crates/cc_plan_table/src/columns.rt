//! The columns of a slot's row.

ghost use Rattle.std.specs.Prelude.{◌≡◌, ◌++◌, [], OnOk, codes, slice_get, unwrap_or};
ghost use Rattle.std.specs.Fmt.{decimal};
ghost use Rattle.cc_plan_legal.specs.Short.{element_bits as element_bits_of};
ghost use Rattle.cc_plan_table.specs.Columns.{bits_column, class_text as text_of_class, coding_column as text_of_coding_column, coding_of as coding_of_slot, coding_text as text_of_coding, given_reason as text_of_given_reason, reason_column as text_of_reason_column, reason_text as text_of_reason, tells_values as tells_values_of, values_column, word_column};

use crate::standing::Standing;
use cc_bins::Field;
use cc_code::kind_of;
use cc_code::kinds::Coding;
use cc_program::Program;
use cc_program::num::{Name, NoMemory, at};
use cc_slots_types::{Class, Reason, Slot};
use cc_state_texts::{put, put_number, put_values};
use std::alloc::Global;

pub(crate) fn class_text(class: Class) -> &'static [u8]
    ensures { result.now ≡ text_of_class class }
{
    match class {
        Class::Lone => b"lone",
        Class::Read => b"read",
        Class::Written => b"written",
    }
}

fn coding_text(coding: Coding) -> &'static [u8]
    ensures { result.now ≡ text_of_coding coding }
{
    match coding {
        Coding::Const => b"const",
        Coding::Direct => b"direct",
        Coding::Biased(_) => b"biased",
        Coding::Table => b"table",
    }
}

fn reason_text(reason: Reason) -> &'static [u8]
    ensures { result.now ≡ text_of_reason reason }
{
    match reason {
        Reason::Volatile => b"volatile",
        Reason::Const => b"const",
        Reason::Addressed => b"addressed",
        Reason::Automatic => b"automatic",
        Reason::Torn => b"torn",
        Reason::Index => b"index",
        Reason::Wide => b"wide",
    }
}

/// Whether the values of a slot are told.
fn tells_values(reason: Option<Reason>) -> bool
    ensures { result ≡ tells_values_of reason }
{
    !matches!(reason, Some(Reason::Volatile | Reason::Const))
}

/// Appends the values of a slot, where they are told.
pub(crate) fn put_values_column(
    alloc: Global,
    text: &mut Vec<u8>,
    p: &Program,
    slot: &Slot,
) -> Result<(), NoMemory>
    ensures { OnOk result (text.new.items ≡ text.old.items ++ values_column p.now slot.now) }
{
    if tells_values(slot.reason) {
        put_values(alloc, text, p, &slot.values)
    } else {
        Ok(())
    }
}

/// Appends the bits of a slot's code, where its values are told.
pub(crate) fn put_bits_column(
    alloc: Global,
    text: &mut Vec<u8>,
    slot: &Slot,
) -> Result<(), NoMemory>
    ensures { OnOk result (text.new.items ≡ text.old.items ++ bits_column slot.now) }
{
    if tells_values(slot.reason) {
        put_number(alloc, text, u64::from(slot.bits))
    } else {
        Ok(())
    }
}

/// The kind of a slot's coding.
#[tactic(auto, unfolding(crate::specs::Columns::coding_of))]
pub(crate) fn coding_of(slot: &Slot) -> Coding
    ensures { result ≡ coding_of_slot slot.now }
{
    kind_of(&slot.values, slot.bits)
}

/// The kind of the coding of a slot that is coded.
pub(crate) fn coding_column(slot: &Slot, standing: Standing) -> &'static [u8]
    ensures { result.now ≡ text_of_coding_column slot.now standing }
{
    if standing.is_coded() {
        coding_text(coding_of(slot))
    } else {
        &[]
    }
}

/// The bits that an element of a packed array takes.
fn element_bits(bits: u32) -> u32
    ensures { result ≡ element_bits_of bits }
{
    match bits {
        0..=2 => bits,
        3 | 4 => 4,
        5..=8 => 8,
        _ => 16,
    }
}

/// Appends the name of a word.
fn put_word_name(text: &mut Vec<u8>, words: &[Name], word: u32) -> Result<(), NoMemory>
    ensures { OnOk result (text.new.items ≡ text.old.items ++ unwrap_or (slice_get words.now word) []) }
{
    match at(words, word as usize) {
        Some(name) => put(text, name.all()),
        None => Ok(()),
    }
}

/// Appends where a field stands.
fn put_field(
    alloc: Global,
    text: &mut Vec<u8>,
    words: &[Name],
    field: Field,
) -> Result<(), NoMemory>
    ensures { OnOk result (text.new.items ≡ text.old.items ++ (unwrap_or (slice_get words.now field.word) [] ++ codes ":" ++ decimal field.shift)) }
{
    put_word_name(text, words, field.word)?;
    put(text, b":")?;
    put_number(alloc, text, u64::from(field.shift))
}

/// Appends the word of a slot, or its own name where it is a packed array.
pub(crate) fn put_word_column(
    alloc: Global,
    text: &mut Vec<u8>,
    words: &[Name],
    slot: &Slot,
    standing: Standing,
) -> Result<(), NoMemory>
    ensures { OnOk result (text.new.items ≡ text.old.items ++ word_column words.now slot.now standing) }
{
    match standing {
        Standing::InWord(field) => put_field(alloc, text, words, field),
        Standing::AsArray => {
            put(text, slot.name.all())?;
            put(text, b"/")?;
            put_number(alloc, text, u64::from(element_bits(slot.bits)))
        }
        _ => Ok(()),
    }
}

fn given_reason(reason: Option<Reason>) -> &'static [u8]
    ensures { result.now ≡ text_of_given_reason reason }
{
    match reason {
        Some(reason) => reason_text(reason),
        None => &[],
    }
}

/// Why a slot is not coded.
pub(crate) fn reason_column(slot: &Slot, standing: Standing) -> &'static [u8]
    ensures { result.now ≡ text_of_reason_column slot.now standing }
{
    match standing {
        Standing::BeyondBudget => b"budget",
        Standing::Dissolved => b"dissolved",
        Standing::Nowhere => given_reason(slot.reason),
        _ => &[],
    }
}
