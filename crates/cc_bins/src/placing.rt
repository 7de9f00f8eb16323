//! The placing of slots.

ghost use Rattle.std.specs.Prelude.{◌≡◌, ◌≤◌, ◌<◌, ◌+◌, ◌^◌, ◌++◌, [], length, map, All, IfOk, OnOk, IsPermutation, IsSorted, count_by, ◌==◌, ℕ};
ghost use Rattle.cc_bins.specs.Packed.{AreApart};
ghost use Rattle.cc_bins.specs.Placing.{place_order, put as put_of, opens, bins_of, field_of, IsPlacing};
ghost use Rattle.cc_bins.specs.Search.{room_at, moved_to};

use crate::open_words::{Open, Placed};
use crate::types::{Bins, Field, Want, Word};
use cc_num::{List, NoMemory};
use std::alloc::Global;
use std::cmp::Reverse;

/// Where the search for room goes on. Words before `at` have no room for so many bits of the group,
/// and words before `start` are of other groups.
#[derive(Clone, Copy)]
struct Cursor {
    group: u64,
    bits: u8,
    start: usize,
    at: usize,
}

/// Where the search begins for the slot that comes next: where the last one ended if its slot had as
/// many bits, else at the first word of the group.
fn moved(cursor: Cursor, want: &Want, count: usize) -> Cursor
    ensures { result ≡ moved_to cursor want.now count }
{
    if cursor.group != want.group {
        Cursor {
            group: want.group,
            bits: want.bits,
            start: count,
            at: count,
        }
    } else if cursor.bits != want.bits {
        Cursor {
            group: want.group,
            bits: want.bits,
            start: cursor.start,
            at: cursor.start,
        }
    } else {
        cursor
    }
}

/// The first word with room for the slot, or how many words there are. None before `from` has room.
fn first_with_room(words: &[Open], from: usize, want: &Want) -> usize
    requires { from ≤ room_at want.now words.now }
    ensures { result ≡ room_at want.now words.now }
{
    let mut at = from;
    while at < words.len() && !words[at].has_room(want.group, want.bits) {
        at += 1;
    }
    at
}

/// Puts a slot into the first word with room, or into one that is opened for it.
fn put(alloc: Global, words: &mut Vec<Open>, at: usize, want: &Want) -> Result<(), NoMemory>
    requires { at ≡ room_at want.now words.old.items }
    ensures { OnOk result (words.new.items ≡ put_of words.old.items want.now) }
{
    if at < words.len() {
        words[at].add(alloc, want)
    } else {
        let word = Open::new(alloc, want)?;
        words.push(word)?;
        Ok(())
    }
}

/// Opens words for slots in the order of placing, where none is open yet.
fn fill(alloc: Global, words: &mut Vec<Open>, order: &[Want]) -> Result<(), NoMemory>
    requires none { words.old.items ≡ [] }
    requires sorted { IsSorted place_order order.now }
    ensures words { OnOk result (words.new.items ≡ opens order.now) }
    ensures slots { IfOk result (λ _. All (λ want. want.slot < 2 ^ 32) order.now) }
{
    let mut cursor = Cursor {
        group: 0,
        bits: 0,
        start: 0,
        at: 0,
    };
    for want in order {
        let _slot = want.slot;
        let next = moved(cursor, want, words.len());
        let at = first_with_room(words, next.at, want);
        put(alloc, words, at, want)?;
        cursor = Cursor {
            group: next.group,
            bits: next.bits,
            start: next.start,
            at,
        };
    }
    Ok(())
}

/// The words that are opened for slots in the order of placing.
fn filled(alloc: Global, order: &[Want]) -> Result<Vec<Open>, NoMemory>
    requires { IsSorted place_order order.now }
    ensures words { IfOk result (λ words. words.items ≡ opens order.now) }
    ensures slots { IfOk result (λ _. All (λ want. want.slot < 2 ^ 32) order.now) }
{
    let mut words = Vec::new(alloc);
    fill(alloc, &mut words, order)?;
    Ok(words)
}

/// Puts the fields of a word behind others.
fn add_fields(fields: &mut Vec<Field>, word: u32, slots: &[Placed]) -> Result<(), NoMemory>
    ensures { OnOk result (fields.new.items ≡ fields.old.items ++ map (field_of word) slots.now) }
{
    for placed in slots {
        fields.push(Field {
            slot: placed.want.slot,
            word,
            shift: placed.shift,
        })?;
    }
    Ok(())
}

/// Puts the words that save bytes into an empty list, and their fields into another.
fn keep(words: &mut Vec<Word>, fields: &mut Vec<Field>, open_words: &[Open]) -> Result<(), NoMemory>
    requires words { words.old.items ≡ [] }
    requires fields { fields.old.items ≡ [] }
    requires few { length open_words.now ≤ 2 ^ 32 }
    ensures { OnOk result (bins_of open_words.now ≡ record { words = words.new.items; fields = fields.new.items }) }
{
    for opened in open_words {
        if opened.saves() {
            add_fields(fields, words.len() as u32, opened.slots.all())?;
            words.push(Word {
                group: opened.group,
                bits: opened.bits,
            })?;
        }
    }
    Ok(())
}

/// The words that save bytes, and their fields.
fn kept(alloc: Global, open_words: &[Open]) -> Result<Bins, NoMemory>
    requires { length open_words.now ≤ 2 ^ 32 }
    ensures { IfOk result (λ bins. bins ≡ bins_of open_words.now) }
{
    let mut words = Vec::new(alloc);
    let mut fields = Vec::new(alloc);
    keep(&mut words, &mut fields, open_words)?;
    Ok(Bins {
        words: List::of(words),
        fields: List::of(fields),
    })
}

/// The slots in the order in which they are placed.
fn in_order(alloc: Global, wants: &[Want]) -> Result<Vec<Want>, NoMemory>
    ensures permuted { IfOk result (λ order. IsPermutation wants.now order.items) }
    ensures sorted { IfOk result (λ order. IsSorted place_order order.items) }
{
    let mut order = Vec::from_slice(alloc, wants)?;
    order.sort_by_key(|want| (want.group, Reverse(want.bits), want.slot))?;
    Ok(order)
}

/// Places slots in words. Those of one group go by bits descending, then by number, each into the first
/// word of the group that has room, at its lowest free bits; where none has room, into a new word of 8
/// bits, or of 16 where it has more than 8. A word that has not fewer bytes than its slots together is
/// dissolved: its slots stand in no word.
pub fn place(alloc: Global, wants: &[Want]) -> Result<Bins, NoMemory>
    requires bits { All (λ want. (1 ≤ want.bits) × (want.bits ≤ 16)) wants.now }
    requires slots { AreApart wants.now }
    ensures placing { IfOk result (IsPlacing wants.now) }

    // Each slot stands in one field at most.
    ensures once { IfOk result (λ bins. (slot : ℕ) → count_by (λ field. field.slot == slot) bins.fields ≤ 1) }
{
    let order = in_order(alloc, wants)?;
    let words = filled(alloc, &order)?;
    kept(alloc, &words)
}
