//! Changes of what is known at points:
//!
//!     flag 4 off                      how the flag may be: `off`, `on`, `both`, or in no way
//!     local 4 0 - 2, cell 4 1 = 3     the set of a register and of a tracked cell, by their positions
//!     same 4 0 1                      one more pair of a register and a tracked cell, behind the others
//!     unreached 4                     nothing is known there

use crate::changes::put;
use crate::sets::changed_set;
use cases_script::split;
use cc_lattice::IntDomain;
use cc_num::{List, at};
use cc_places::Abs;
use cc_state_facts::{PointFact, Row, Shared, copied_point};
use cc_state_shared::share_all;
use std::alloc::Global;
use std::mem;

/// How many tracked cells a row has, where it is not the last.
const ROW_LENGTH: usize = 16;

/// Changes one of some sets.
fn change_shared<I: IntDomain>(
    alloc: Global,
    sets: &mut List<Shared<Abs<I>>>,
    n: usize,
    how: &str,
) -> Option<()> {
    let set = changed_set(alloc, at(sets.all(), n)?.get(), how)?;
    let shared = Shared::new(alloc, set).ok()?;
    put(alloc, sets, n, shared)
}

/// Changes the set of a tracked cell.
fn change_cell<I: IntDomain>(
    alloc: Global,
    rows: &mut List<Shared<Row<I>>>,
    n: usize,
    how: &str,
) -> Option<()> {
    let row = at(rows.all(), n / ROW_LENGTH)?.get();
    let mut cells = List::of(share_all(alloc, row.cells.all()).ok()?);
    change_shared(alloc, &mut cells, n % ROW_LENGTH, how)?;
    let shared = Shared::new(alloc, Row { cells }).ok()?;
    put(alloc, rows, n / ROW_LENGTH, shared)
}

fn add_pair(alloc: Global, pairs: &mut List<(u32, u32)>, words: &str) -> Option<()> {
    let (register, cell) = split(words);
    let pair = (register.parse().ok()?, cell.parse().ok()?);
    let mut items = mem::replace(pairs, List::of(Vec::new(alloc))).into_vec();
    items.push(pair).ok()?;
    *pairs = List::of(items);
    Some(())
}

/// What is known at a point, with a change.
fn changed_point<I: IntDomain>(
    alloc: Global,
    fact: &PointFact<I>,
    word: &str,
    words: &str,
) -> Option<PointFact<I>> {
    let (n, how) = split(words);
    let mut made = copied_point(alloc, fact).ok()?;
    match word {
        "flag" => {
            made.off = matches!(words, "off" | "both");
            made.on = matches!(words, "on" | "both");
        }
        "local" => change_shared(alloc, &mut made.locals, n.parse().ok()?, how)?,
        "cell" => change_cell(alloc, &mut made.rows, n.parse().ok()?, how)?,
        "same" => add_pair(alloc, &mut made.same, words)?,
        _ => return None,
    }
    Some(made)
}

/// Changes what is known at a point.
pub fn change_point<I: IntDomain>(
    alloc: Global,
    known: &mut List<Option<PointFact<I>>>,
    word: &str,
    words: &str,
) -> Option<()> {
    let (n, words) = split(words);
    let n: usize = n.parse().ok()?;
    if word == "unreached" {
        return put(alloc, known, n, None);
    }
    let made = changed_point(alloc, at(known.all(), n)?.as_ref()?, word, words)?;
    put(alloc, known, n, Some(made))
}
