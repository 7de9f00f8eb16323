//! How cases write slots and plans: a word `slots`, `words`, `fields`, `consts`, `arrays`, `budget` or `dissolved`, and behind it
//! what is in the list.
//!
//!     slots      `GROUP:FORM:BITS/BYTES`, numbered from 0; the form is `field`, `const` or `array`; `*COUNT` behind it says how
//!                many scalars there are, where it is not one, and `!REASON` behind that why the slot is not coded
//!     words      `GROUP:BITS`
//!     fields     `SLOT@WORD.SHIFT`
//!     the rest   numbers of slots

use cc_bins::{Field, Word};
use cc_plan_legal::{Candidate, Form, Parts};
use cc_program::num::List;
use cc_slots_types::Reason;
use std::alloc::{AllocError, Global};

/// The list whose members are read.
#[derive(Clone, Copy)]
enum Place {
    Slots,
    Words,
    Fields,
    Consts,
    Arrays,
    Budget,
    Dissolved,
}

/// What was read of a case.
#[derive(Drop)]
struct Lists {
    slots: Vec<Candidate>,
    words: Vec<Word>,
    fields: Vec<Field>,
    consts: Vec<u32>,
    arrays: Vec<u32>,
    budget: Vec<u32>,
    dissolved: Vec<u32>,
}

fn place_of(word: &str) -> Option<Place> {
    match word {
        "slots" => Some(Place::Slots),
        "words" => Some(Place::Words),
        "fields" => Some(Place::Fields),
        "consts" => Some(Place::Consts),
        "arrays" => Some(Place::Arrays),
        "budget" => Some(Place::Budget),
        "dissolved" => Some(Place::Dissolved),
        _ => None,
    }
}

fn reason_of(word: &str) -> Option<Reason> {
    match word {
        "volatile" => Some(Reason::Volatile),
        "const" => Some(Reason::Const),
        "addressed" => Some(Reason::Addressed),
        "automatic" => Some(Reason::Automatic),
        "torn" => Some(Reason::Torn),
        "index" => Some(Reason::Index),
        "wide" => Some(Reason::Wide),
        _ => None,
    }
}

fn form_of(word: &str) -> Option<Form> {
    match word {
        "field" => Some(Form::Field),
        "const" => Some(Form::Const),
        "array" => Some(Form::Array),
        _ => None,
    }
}

/// The slot that a word writes.
fn candidate_of(word: &str) -> Option<Candidate> {
    let (word, reason) = word.split_once('!').unwrap_or((word, ""));
    let (word, count) = word.split_once('*').unwrap_or((word, "1"));
    let (group, rest) = word.split_once(':')?;
    let (form, rest) = rest.split_once(':')?;
    let (bits, bytes) = rest.split_once('/')?;
    Some(Candidate {
        group: group.parse().ok()?,
        form: form_of(form)?,
        bits: bits.parse().ok()?,
        bytes: bytes.parse().ok()?,
        count: count.parse().ok()?,
        reason: reason_of(reason),
    })
}

fn word_of(word: &str) -> Option<Word> {
    let (group, bits) = word.split_once(':')?;
    Some(Word {
        group: group.parse().ok()?,
        bits: bits.parse().ok()?,
    })
}

fn field_of(word: &str) -> Option<Field> {
    let (slot, rest) = word.split_once('@')?;
    let (word, shift) = rest.split_once('.')?;
    Some(Field {
        slot: slot.parse().ok()?,
        word: word.parse().ok()?,
        shift: shift.parse().ok()?,
    })
}

/// Puts what a word writes behind a list, where it writes something.
fn add<T: Copy>(list: &mut Vec<T>, item: Option<T>) -> Result<bool, AllocError> {
    match item {
        None => Ok(false),
        Some(item) => {
            list.push(item)?;
            Ok(true)
        }
    }
}

/// Puts what a word writes into the list of this place, where it writes something.
fn put(lists: &mut Lists, place: Place, word: &str) -> Result<bool, AllocError> {
    match place {
        Place::Slots => add(&mut lists.slots, candidate_of(word)),
        Place::Words => add(&mut lists.words, word_of(word)),
        Place::Fields => add(&mut lists.fields, field_of(word)),
        Place::Consts => add(&mut lists.consts, word.parse().ok()),
        Place::Arrays => add(&mut lists.arrays, word.parse().ok()),
        Place::Budget => add(&mut lists.budget, word.parse().ok()),
        Place::Dissolved => add(&mut lists.dissolved, word.parse().ok()),
    }
}

/// Reads the words of a case.
fn read(lists: &mut Lists, case: &str) -> Result<bool, AllocError> {
    let mut place = Place::Slots;
    for word in case.split_whitespace() {
        match place_of(word) {
            Some(next) => place = next,
            None => {
                if !put(lists, place, word)? {
                    return Ok(false);
                }
            }
        }
    }
    Ok(true)
}

/// The slots and the lists of a plan that a case writes, if it has a meaning.
pub fn written_of(
    alloc: Global,
    case: &str,
) -> Result<Option<(Vec<Candidate>, Parts)>, AllocError> {
    let mut lists = Lists {
        slots: Vec::new(alloc),
        words: Vec::new(alloc),
        fields: Vec::new(alloc),
        consts: Vec::new(alloc),
        arrays: Vec::new(alloc),
        budget: Vec::new(alloc),
        dissolved: Vec::new(alloc),
    };
    if !read(&mut lists, case)? {
        return Ok(None);
    }
    let Lists {
        slots,
        words,
        fields,
        consts,
        arrays,
        budget,
        dissolved,
    } = lists;
    let parts = Parts {
        fields: List::of(fields),
        consts: List::of(consts),
        arrays: List::of(arrays),
        words: List::of(words),
        budget: List::of(budget),
        dissolved: List::of(dissolved),
    };
    Ok(Some((slots, parts)))
}
