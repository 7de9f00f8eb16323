//! How facts are written, a line for each function, key and point that is reached:
//!
//!     function 0 main handler 1 0 {2}      who reaches it, its levels and those that it is reached from, and what it gives
//!     key Object(0) read write 1 1 {0 1}   which code of handlers touches it, the levels of both, and its set
//!     point 4 both | {1} | {0 1} | 0=0     how the flag may be, the registers, the tracked cells, and the equal ones of these

use cases_script::Page;
use cc_lattice::IntDomain;
use cc_num::at;
use cc_places::Abs;
use cc_program::Program;
use cc_state_facts::{Facts, PointFact, Row, Shared};
use cc_state_texts::put_values;
use std::alloc::Global;

/// Writes a set.
fn write_set<I: IntDomain>(
    alloc: Global,
    page: &mut Page,
    p: &Program,
    set: &Abs<I>,
) -> Option<()> {
    let mut text = Vec::new(alloc);
    put_values(alloc, &mut text, p, set).ok()?;
    page.put(" {");
    page.bytes(&text);
    page.put("}");
    Some(())
}

/// Writes a mark, where it is set.
fn write_mark(page: &mut Page, marks: &[bool], n: usize, mark: &str) {
    if matches!(at(marks, n), Some(true)) {
        page.put(mark);
    }
}

/// Writes a set of levels.
fn write_levels(page: &mut Page, sets: &[u8], n: usize) {
    if let Some(levels) = at(sets, n) {
        page.put_with(" ", *levels);
    }
}

fn write_functions<I: IntDomain>(
    alloc: Global,
    page: &mut Page,
    p: &Program,
    facts: &Facts<I>,
) -> Option<()> {
    for (g, result) in facts.results.all().iter().enumerate() {
        page.put_with("\n  function ", g);
        write_mark(page, facts.by_main.all(), g, " main");
        write_mark(page, facts.by_handler.all(), g, " handler");
        write_levels(page, facts.levels.all(), g);
        write_levels(page, facts.from.all(), g);
        write_set(alloc, page, p, result)?;
    }
    Some(())
}

fn write_keys<I: IntDomain>(
    alloc: Global,
    page: &mut Page,
    p: &Program,
    facts: &Facts<I>,
) -> Option<()> {
    for (k, key) in facts.keys.all().iter().enumerate() {
        page.put("\n  key ");
        page.debug(*key);
        write_mark(page, facts.handler_reads.all(), k, " read");
        write_mark(page, facts.handler_writes.all(), k, " write");
        write_levels(page, facts.read_levels.all(), k);
        write_levels(page, facts.write_levels.all(), k);
        write_set(alloc, page, p, at(facts.whole.all(), k)?)?;
    }
    Some(())
}

/// Writes the sets of registers, or of a row of tracked cells.
fn write_sets<I: IntDomain>(
    alloc: Global,
    page: &mut Page,
    p: &Program,
    sets: &[Shared<Abs<I>>],
) -> Option<()> {
    for set in sets {
        write_set(alloc, page, p, set.get())?;
    }
    Some(())
}

fn write_rows<I: IntDomain>(
    alloc: Global,
    page: &mut Page,
    p: &Program,
    rows: &[Shared<Row<I>>],
) -> Option<()> {
    for row in rows {
        write_sets(alloc, page, p, row.get().cells.all())?;
    }
    Some(())
}

fn write_pairs(page: &mut Page, pairs: &[(u32, u32)]) {
    for pair in pairs {
        page.put_with(" ", pair.0);
        page.put_with("=", pair.1);
    }
}

fn write_point<I: IntDomain>(
    alloc: Global,
    page: &mut Page,
    p: &Program,
    fact: &PointFact<I>,
) -> Option<()> {
    page.put(match (fact.off, fact.on) {
        (true, true) => " both |",
        (true, false) => " off |",
        (false, true) => " on |",
        (false, false) => " |",
    });
    write_sets(alloc, page, p, fact.locals.all())?;
    page.put(" |");
    write_rows(alloc, page, p, fact.rows.all())?;
    page.put(" |");
    write_pairs(page, fact.same.all());
    Some(())
}

/// Writes facts.
pub fn write_facts<I: IntDomain>(
    alloc: Global,
    page: &mut Page,
    p: &Program,
    facts: &Facts<I>,
) -> Option<()> {
    write_functions(alloc, page, p, facts)?;
    write_keys(alloc, page, p, facts)?;
    for (n, fact) in facts.at.all().iter().enumerate() {
        if let Some(fact) = fact {
            page.put_with("\n  point ", n);
            write_point(alloc, page, p, fact)?;
        }
    }
    Some(())
}
