//! Placings of many slots, of which a summary is written.

ghost use Rattle.std.specs.Prelude.{IfOk, ◌≤◌};
ghost use Rattle.cases_leaves.specs.Wants.{ArePlaceable};

use crate::placings::write_field;
use cases_script::{Page, split};
use cc_bins::{Bins, Want, place};
use std::alloc::{AllocError, Global};

/// So many slots, the first half of some bits and the others of others.
fn wants_of(alloc: Global, count: u32, bits: u8, then: u8) -> Result<Vec<Want>, AllocError>
    requires first { (1 ≤ bits) × (bits ≤ 16) }
    requires second { (1 ≤ then) × (then ≤ 16) }
    ensures { IfOk result (λ wants. ArePlaceable wants.items) }
{
    let mut wants = Vec::new(alloc);
    for slot in 0..count {
        wants.push(Want {
            group: 0,
            slot,
            bits: if slot < count / 2 { bits } else { then },
            bytes: 2,
        })?;
    }
    Ok(wants)
}

fn write_summary(page: &mut Page, bins: &Bins) {
    page.show(bins.words.all().len());
    page.put(" words, ");
    page.show(bins.fields.all().len());
    page.put(" fields");
    if let Some(word) = bins.words.all().last() {
        page.put_with(", the last word ", word.group);
        page.put_with(":", word.bits);
    }
    if let Some(field) = bins.fields.all().last() {
        page.put(", the last field ");
        write_field(page, field);
    }
}

fn write_placing(alloc: Global, page: &mut Page, count: u32, bits: u8, then: u8) {
    if bits < 1 || bits > 16 || then < 1 || then > 16 {
        return page.put("unclear");
    }
    match wants_of(alloc, count, bits, then) {
        Ok(wants) => match place(alloc, &wants) {
            Ok(bins) => write_summary(page, &bins),
            Err(_) => page.put("no memory"),
        },
        Err(_) => page.put("no memory"),
    }
}

/// Writes how the slots of a case are placed.
pub fn write_outcome(alloc: Global, page: &mut Page, case: &str) {
    let (count, rest) = split(case);
    let (bits, then) = split(rest);
    match (count.parse(), bits.parse(), then.parse()) {
        (Ok(count), Ok(bits), Ok(then)) => write_placing(alloc, page, count, bits, then),
        _ => page.put("unclear"),
    }
}
