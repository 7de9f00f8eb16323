//! A list and a box, and what is taken out of them.

use crate::contents::number;
use cases_script::{Page, bytes_of, split};
use cc_program::num::{Boxed, List, at};
use std::alloc::Global;

fn write_list(page: &mut Page, list: List<u8>) {
    let all = list.all();
    page.debug(all);
    page.put(", second ");
    page.debug(at(all, 1).copied());
    page.put(", fourth ");
    page.debug(at(all, 3).copied());
    let bytes = list.into_vec();
    page.put(", taken out ");
    page.show(bytes.len());
}

fn write_box(page: &mut Page, boxed: Boxed<u64>) {
    page.show(*boxed.get());
    page.put(", taken out ");
    page.show(boxed.into_inner());
}

/// Writes what a list of bytes gives, or a box of a number.
pub fn write_outcome(alloc: Global, page: &mut Page, case: &str) {
    page.put(" ");
    let (word, case) = split(case);
    if word == "box" {
        return match Boxed::new(alloc, number(case)) {
            Ok(boxed) => write_box(page, boxed),
            Err(_) => page.put("no memory"),
        };
    }
    match bytes_of(alloc, case) {
        Ok(bytes) => write_list(page, List::of(bytes)),
        Err(_) => page.put("no memory"),
    }
}
