//! The rules that a slot breaks.

ghost use Rattle.std.specs.Prelude.{◌≡◌, Some as SomeOf, slice_get};
ghost use Rattle.cc_plan_legal.specs.Index.{IsIndex};
ghost use Rattle.cc_plan_legal.specs.Legality.{breach as breach_of, breach_where as breach_where_of, has_reason as has_reason_of, wrong_group as wrong_group_of, overlaps as overlaps_of, passes_end as passes_end_of, is_size as is_size_of, wrong_size as wrong_size_of, saves_nothing as saves_nothing_of, breaks_in_word as breaks_in_word_of, breaks_as_field as breaks_as_field_of, misplaced_as as misplaced_as_of, misplaced as misplaced_of, repeated as repeated_of, breaks as breaks_of};

use crate::candidate::{Candidate, Form};
use crate::fields::{bytes_within, end_of, first_overlapped, most_bits};
use crate::index::{Index, field_of, fields_in};
use crate::kinds::Plan;
use crate::legal::Illegal;
use crate::standing::{stands_as, times};
use cc_bins::{Field, Word};
use cc_program::num::at;

fn breach(slot: u32, rule: u8, have: u64, need: u64) -> Illegal
    ensures { result ≡ breach_of slot rule have need }
{
    Illegal {
        slot,
        rule,
        have,
        need,
    }
}

fn breach_where(is_broken: bool, breach: Illegal) -> Option<Illegal>
    ensures { result ≡ breach_where_of is_broken breach }
{
    if is_broken { Some(breach) } else { None }
}

fn has_reason(slot: u32, candidate: &Candidate) -> Option<Illegal>
    ensures { result ≡ has_reason_of slot candidate.now }
{
    match candidate.reason {
        None => None,
        Some(reason) => Some(breach(slot, 1, reason.number(), 0)),
    }
}

fn wrong_group(candidate: &Candidate, field: &Field, word: &Word) -> Option<Illegal>
    ensures { result ≡ wrong_group_of candidate.now field.now word.now }
{
    breach_where(
        word.group != candidate.group,
        breach(field.slot, 2, word.group, candidate.group),
    )
}

fn overlaps(slots: &[Candidate], fields: &[Field], field: &Field) -> Option<Illegal>
    ensures { result ≡ overlaps_of slots.now fields.now field.now }
{
    match first_overlapped(slots, fields, field) {
        None => None,
        Some(other) => Some(breach(
            field.slot,
            3,
            u64::from(field.shift),
            u64::from(other.shift),
        )),
    }
}

fn passes_end(slots: &[Candidate], field: &Field, word: &Word) -> Option<Illegal>
    ensures { result ≡ passes_end_of slots.now field.now word.now }
{
    let end = end_of(slots, field);
    let bits = u64::from(word.bits);
    breach_where(bits < end, breach(field.slot, 4, end, bits))
}

/// Whether a word may have so many bits, where a slot in it has these.
fn is_size(bits: u8, most: u32) -> bool
    ensures { result ≡ is_size_of bits most }
{
    bits == 8 || bits == 16 && most > 8
}

fn wrong_size(slots: &[Candidate], fields: &[Field], field: &Field, word: &Word) -> Option<Illegal>
    ensures { result ≡ wrong_size_of slots.now fields.now field.now word.now }
{
    let most = most_bits(slots, fields, field.word);
    breach_where(
        !is_size(word.bits, most),
        breach(field.slot, 5, u64::from(word.bits), u64::from(most)),
    )
}

fn saves_nothing(
    slots: &[Candidate],
    fields: &[Field],
    field: &Field,
    word: &Word,
) -> Option<Illegal>
    ensures { result ≡ saves_nothing_of slots.now fields.now field.now word.now }
{
    let have = word.bits / 8;
    match bytes_within(slots, fields, field.word, have) {
        None => None,
        Some(need) => Some(breach(field.slot, 6, u64::from(have), need)),
    }
}

fn breaks_in_word(
    slots: &[Candidate],
    fields: &[Field],
    candidate: &Candidate,
    field: &Field,
    word: &Word,
) -> Option<Illegal>
    ensures { result ≡ breaks_in_word_of slots.now fields.now candidate.now field.now word.now }
{
    wrong_group(candidate, field, word).or(overlaps(slots, fields, field).or(passes_end(
        slots, field, word,
    ).or(wrong_size(slots, fields, field, word).or(saves_nothing(slots, fields, field, word)))))
}

/// What a field breaks of the rules of its word; the word's fields are all that count.
fn breaks_with_word(
    slots: &[Candidate],
    plan: &Plan,
    index: &Index,
    candidate: &Candidate,
    field: &Field,
    word: &Word,
) -> Option<Illegal>
    requires index { IsIndex plan.now index.now }
    requires there { slice_get plan.now.words field.now.word ≡ SomeOf word.now }
    ensures { result ≡ breaks_in_word_of slots.now plan.now.fields candidate.now field.now word.now }
{
    let fields = fields_in(plan, index, field.word);
    breaks_in_word(slots, fields, candidate, field, word)
}

fn breaks_as_field(
    slots: &[Candidate],
    plan: &Plan,
    index: &Index,
    slot: u32,
    candidate: &Candidate,
) -> Option<Illegal>
    requires { IsIndex plan.now index.now }
    ensures { result ≡ breaks_as_field_of slots.now plan.now slot candidate.now }
{
    match field_of(plan, index, slot) {
        None => None,
        Some(field) => match at(plan.words.all(), field.word as usize) {
            None => None,
            Some(word) => breaks_with_word(slots, plan, index, candidate, &field, word),
        },
    }
}

fn misplaced_as(
    plan: &Plan,
    index: &Index,
    slot: u32,
    candidate: &Candidate,
    form: Form,
) -> Option<Illegal>
    requires { IsIndex plan.now index.now }
    ensures { result ≡ misplaced_as_of plan.now slot candidate.now form }
{
    let have = form.number();
    let need = candidate.form.number();
    breach_where(
        stands_as(plan, index, slot, form) && have != need,
        breach(slot, 7, have, need),
    )
}

fn misplaced(plan: &Plan, index: &Index, slot: u32, candidate: &Candidate) -> Option<Illegal>
    requires { IsIndex plan.now index.now }
    ensures { result ≡ misplaced_of plan.now slot candidate.now }
{
    misplaced_as(plan, index, slot, candidate, Form::Field).or(misplaced_as(
        plan,
        index,
        slot,
        candidate,
        Form::Const,
    ).or(misplaced_as(plan, index, slot, candidate, Form::Array)))
}

fn repeated(plan: &Plan, index: &Index, slot: u32) -> Option<Illegal>
    requires { IsIndex plan.now index.now }
    ensures { result ≡ repeated_of plan.now slot }
{
    let have = times(plan, index, slot);
    breach_where(have > 1, breach(slot, 8, have, 1))
}

/// The least rule that a slot breaks.
pub(crate) fn breaks(
    slots: &[Candidate],
    plan: &Plan,
    index: &Index,
    slot: u32,
    candidate: &Candidate,
) -> Option<Illegal>
    requires { IsIndex plan.now index.now }
    ensures { result ≡ breaks_of slots.now plan.now slot candidate.now }
{
    if times(plan, index, slot) == 0 {
        return None;
    }
    has_reason(slot, candidate).or(breaks_as_field(slots, plan, index, slot, candidate).or(
        misplaced(plan, index, slot, candidate).or(repeated(plan, index, slot)),
    ))
}
