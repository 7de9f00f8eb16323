//! Programs that are written out.
//!
//!     w  on                             a write, `irq_on()`
//!     break  continue  return
//!     if .. end  if .. else .. end
//!     while .. end                      `while (1)`
//!     switch case .. default .. end     `case` and `default` begin a case each
//!     |                                 ends a function, and the next one begins

use crate::flow::builder::Builder;
use crate::flow::outcome::write_points;
use cases_script::Page;
use cc_program::{Program, Stmt};
use std::alloc::Global;

/// Does what a word says.
fn put_word(builder: &mut Builder, word: &str) -> Option<()> {
    match word {
        "w" => builder.put_write(),
        "on" => builder.put_on(),
        "break" => builder.put(Stmt::Break),
        "continue" => builder.put(Stmt::Continue),
        "return" => builder.put(Stmt::Return(None)),
        "if" => builder.open_if(),
        "else" => builder.turn(),
        "while" => builder.open_loop(),
        "switch" => builder.open_switch(),
        "case" => builder.next_case(Some(0)),
        "default" => builder.next_case(None),
        "end" => builder.close(),
        "|" => builder.end_function(),
        _ => None,
    }
}

/// The program that a case writes.
fn program_of(alloc: Global, case: &str) -> Option<Program> {
    let mut builder = Builder::new(alloc);
    for word in case.split_whitespace() {
        put_word(&mut builder, word)?;
    }
    builder.end_function()?;
    builder.finish()
}

/// Writes the points of a case.
pub fn write_outcome(alloc: Global, page: &mut Page, case: &str) {
    let case = if case == "nothing" { "" } else { case };
    match program_of(alloc, case) {
        Some(p) => write_points(alloc, page, &p),
        None => page.put("unclear"),
    }
}
