//! Plans of many slots.

use crate::legal::write_judgement;
use cases_script::{Page, split};
use cc_bins::{Field, Word};
use cc_plan_legal::{Candidate, Form, Parts};
use cc_program::num::List;
use std::alloc::{AllocError, Global};

/// How many slots there are at most.
const MOST: u32 = 1_000_000;

/// So many slots of one byte and of 4 bits.
fn slots_of(alloc: Global, count: u32) -> Result<Vec<Candidate>, AllocError> {
    let mut slots = Vec::new(alloc);
    for _ in 0..count {
        slots.push(Candidate {
            group: 0,
            form: Form::Field,
            bits: 4,
            bytes: 1,
            count: 1,
            reason: None,
        })?;
    }
    Ok(slots)
}

/// Their fields, two in each word; the upper of the two stands at `upper`.
fn fields_of(alloc: Global, count: u32, upper: u8) -> Result<Vec<Field>, AllocError> {
    let mut fields = Vec::new(alloc);
    for slot in 0..count {
        fields.push(Field {
            slot,
            word: slot / 2,
            shift: if slot % 2 == 0 { 0 } else { upper },
        })?;
    }
    Ok(fields)
}

fn words_of(alloc: Global, count: u32) -> Result<Vec<Word>, AllocError> {
    let mut words = Vec::new(alloc);
    for _ in 0..count {
        words.push(Word { group: 0, bits: 8 })?;
    }
    Ok(words)
}

/// Writes whether the plan of so many slots is legal.
fn write_many(alloc: Global, page: &mut Page, count: u32, upper: u8) -> Result<(), AllocError> {
    let slots = slots_of(alloc, count)?;
    let parts = Parts {
        fields: List::of(fields_of(alloc, count, upper)?),
        consts: List::of(Vec::new(alloc)),
        arrays: List::of(Vec::new(alloc)),
        words: List::of(words_of(alloc, count / 2 + count % 2)?),
        budget: List::of(Vec::new(alloc)),
        dissolved: List::of(Vec::new(alloc)),
    };
    write_judgement(alloc, page, &slots, parts);
    Ok(())
}

/// The numbers that a case writes.
fn numbers_of(case: &str) -> Option<(u32, u8)> {
    let (count, upper) = split(case);
    Some((count.parse().ok()?, upper.parse().ok()?))
}

/// Writes whether the plan of a case is legal.
pub fn write_outcome(alloc: Global, page: &mut Page, case: &str) {
    match numbers_of(case) {
        None => page.put("unclear"),
        Some((count, upper)) => {
            if count > MOST {
                page.put("too many slots");
            } else if write_many(alloc, page, count, upper).is_err() {
                page.put("no memory");
            }
        }
    }
}
