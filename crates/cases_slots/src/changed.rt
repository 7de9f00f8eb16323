//! How cases write plans: items with blanks between them, in any order of lists.
//!
//!     word:GROUP:BITS       a word, numbered from 0
//!     field:SLOT@WORD.SHIFT
//!     const:SLOT  array:SLOT  budget:SLOT  dissolved:SLOT

use cc_bins::{Field, Word};
use cc_num::List;
use cc_plan_legal::Parts;
use cc_plan_legal::kinds::Plan;
use std::alloc::Global;

/// What was read of a plan.
#[derive(Drop)]
struct Lists {
    fields: Vec<Field>,
    consts: Vec<u32>,
    arrays: Vec<u32>,
    words: Vec<Word>,
    budget: Vec<u32>,
    dissolved: Vec<u32>,
}

fn word_of(text: &str) -> Option<Word> {
    let (group, bits) = text.split_once(':')?;
    Some(Word {
        group: group.parse().ok()?,
        bits: bits.parse().ok()?,
    })
}

fn field_of(text: &str) -> Option<Field> {
    let (slot, rest) = text.split_once('@')?;
    let (word, shift) = rest.split_once('.')?;
    Some(Field {
        slot: slot.parse().ok()?,
        word: word.parse().ok()?,
        shift: shift.parse().ok()?,
    })
}

/// Puts what an item writes into its list.
fn put(lists: &mut Lists, item: &str) -> Option<()> {
    let (list, rest) = item.split_once(':')?;
    match list {
        "word" => lists.words.push(word_of(rest)?).ok(),
        "field" => lists.fields.push(field_of(rest)?).ok(),
        "const" => lists.consts.push(rest.parse().ok()?).ok(),
        "array" => lists.arrays.push(rest.parse().ok()?).ok(),
        "budget" => lists.budget.push(rest.parse().ok()?).ok(),
        "dissolved" => lists.dissolved.push(rest.parse().ok()?).ok(),
        _ => None,
    }
}

/// The lists of the items.
fn lists_of(alloc: Global, items: &str) -> Option<Lists> {
    let mut lists = Lists {
        fields: Vec::new(alloc),
        consts: Vec::new(alloc),
        arrays: Vec::new(alloc),
        words: Vec::new(alloc),
        budget: Vec::new(alloc),
        dissolved: Vec::new(alloc),
    };
    for item in items.split_whitespace() {
        put(&mut lists, item)?;
    }
    Some(lists)
}

/// The plan that items write, if they are those of one.
pub fn plan_of(alloc: Global, items: &str) -> Option<Plan> {
    let Lists {
        fields,
        consts,
        arrays,
        words,
        budget,
        dissolved,
    } = lists_of(alloc, items)?;
    let parts = Parts {
        fields: List::of(fields),
        consts: List::of(consts),
        arrays: List::of(arrays),
        words: List::of(words),
        budget: List::of(budget),
        dissolved: List::of(dissolved),
    };
    parts.into_plan()
}
