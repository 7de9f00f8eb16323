//! Placings of a few slots.

ghost use Rattle.std.specs.Prelude.{IfOk, IfSome};
ghost use Rattle.cases_leaves.specs.Wants.{IsSmall, ArePlaceable};

use crate::wants::{add, small};
use cases_script::Page;
use cc_bins::{Bins, Field, Want, place};
use std::alloc::{AllocError, Global};

/// The slot that a word writes.
fn want_of(group: u64, word: &str) -> Option<Want>
    ensures { IfSome result IsSmall }
{
    let (slot, rest) = word.split_once(':')?;
    let (bits, bytes) = rest.split_once('/')?;
    small(Want {
        group,
        slot: slot.parse().ok()?,
        bits: bits.parse().ok()?,
        bytes: bytes.parse().ok()?,
    })
}

/// The slots that a case writes, if it has a meaning.
fn wants_of(alloc: Global, case: &str) -> Result<Option<Vec<Want>>, AllocError>
    ensures { IfOk result (λ r. IfSome r (λ wants. ArePlaceable wants.items)) }
{
    let mut wants = Vec::new(alloc);
    let mut group = 0;
    for word in case.split_whitespace() {
        match word.strip_prefix('@') {
            Some(number) => group = number.parse().unwrap_or(0),
            None => {
                let Some(want) = want_of(group, word) else {
                    return Ok(None);
                };
                if !add(&mut wants, want)? {
                    return Ok(None);
                }
            }
        }
    }
    Ok(Some(wants))
}

/// Writes a field.
pub fn write_field(page: &mut Page, field: &Field) {
    page.show(field.slot);
    page.put_with("@", field.word);
    page.put_with(".", field.shift);
}

fn write_bins(page: &mut Page, bins: &Bins) {
    page.put("words");
    for word in bins.words.all() {
        page.put_with(" ", word.group);
        page.put_with(":", word.bits);
    }
    page.put(" fields");
    for field in bins.fields.all() {
        page.put(" ");
        write_field(page, field);
    }
}

/// Writes how the slots of a case are placed.
pub fn write_outcome(alloc: Global, page: &mut Page, case: &str) {
    let case = if case == "nothing" { "" } else { case };
    match wants_of(alloc, case) {
        Ok(Some(wants)) => match place(alloc, &wants) {
            Ok(bins) => write_bins(page, &bins),
            Err(_) => page.put("no memory"),
        },
        Ok(None) => page.put("unclear"),
        Err(_) => page.put("no memory"),
    }
}
