//! Sets of addresses, and values of lattices that are made of them.

mod facts;
mod lattices;
mod sets;
mod values;
mod words;
mod written;

use cases_script::Page;
use cc_ranges::Span;
use cc_sets::Vals;
use std::alloc::Global;
use std::mem::size_of;
pub use values::{abs_of, value_of};
pub use written::{write_address, write_value};

// A set of numbers stands in at most 1,100 bytes, members and all.
const _: () = prove!(size_of::<Vals>() <= 1100);

/// What cases over addresses are about.
#[derive(Clone, Copy)]
pub enum Places {
    Addrs,
    Vals,
    Spans,
    Facts,
}

/// Writes what a call gives.
fn write_call(alloc: Global, page: &mut Page, places: Places, case: &str) -> Option<()> {
    match places {
        Places::Addrs => sets::write_call(alloc, page, case),
        Places::Vals => values::write_call::<Vals>(alloc, page, case),
        Places::Spans => values::write_call::<Span>(alloc, page, case),
        Places::Facts => facts::write_call(alloc, page, case),
    }
}

/// Writes what a case gives.
pub fn write_outcome(alloc: Global, page: &mut Page, places: Places, case: &str) {
    if write_call(alloc, page, places, case).is_none() {
        page.put("unclear");
    }
}
