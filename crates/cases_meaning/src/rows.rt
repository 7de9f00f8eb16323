//! How the files of a run are written: the inputs, or the arrivals as `TURN:ID`, or the first row that is not of the form.
//!
//! Arrivals are those of a program of five functions: 0 is `tick`, a handler by an attribute; 1 is `helper`, which is none;
//! 2 is `tock`, a handler that the roles name; 3 is `t2`, a handler too; 4 is `main`.

use cases_program::program_of;
use cases_script::{Page, bytes_of};
use cc_program::Program;
use cc_run::{RowFault, read_arrivals, read_inputs};
use std::alloc::Global;

/// The program whose handlers arrive.
const WORDS: &str =
    "signal void fun:tick:0 void fun:helper:0 listed void fun:tock:0 interrupt void fun:t2:0 main";

fn write_fault(page: &mut Page, fault: RowFault) {
    match fault {
        RowFault::Row(row) => page.put_with("row ", row),
        RowFault::NoMemory => page.put("no memory"),
    }
}

/// Writes the inputs of a text.
pub fn write_inputs(alloc: Global, page: &mut Page, case: &str) {
    let Ok(text) = bytes_of(alloc, case) else {
        return page.put("no memory");
    };
    match read_inputs(alloc, text.as_slice()) {
        Ok(inputs) => {
            page.put("ok");
            for input in &inputs {
                page.put_with(" ", *input);
            }
        }
        Err(fault) => write_fault(page, fault),
    }
}

fn write_arrivals_of(alloc: Global, page: &mut Page, p: &Program, case: &str) {
    let Ok(text) = bytes_of(alloc, case) else {
        return page.put("no memory");
    };
    match read_arrivals(alloc, p, text.as_slice()) {
        Ok(arrivals) => {
            page.put("ok");
            for (turn, handler) in &arrivals {
                page.put_with(" ", *turn);
                page.put_with(":", *handler);
            }
        }
        Err(fault) => write_fault(page, fault),
    }
}

/// Writes the arrivals of a text.
pub fn write_arrivals(alloc: Global, page: &mut Page, case: &str) {
    match program_of(alloc, "", WORDS) {
        Some(p) => write_arrivals_of(alloc, page, &p, case),
        None => page.put("no program"),
    }
}
