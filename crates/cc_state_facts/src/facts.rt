//! The types of facts, and the sets that they have at points.

ghost use Rattle.std.specs.Prelude.{◌≡◌};
ghost use Rattle.std.specs.Option.{option_copied};
ghost use Rattle.cc_state_facts.specs.Facts.{cell_at, local_at, cell_of, fact_at};

use cc_places::Abs;
use cc_program::num::{List, at};
use cc_state_shared::Shared;

/// How many tracked cells a row has, where it is not the last.
const ROW_LENGTH: usize = 16;

/// A class of cells: a scalar, or all scalars of an array. A member stands for all objects of its structure.
#[derive(Clone, Copy, Debug, PartialEq, Eq)]
pub enum Key {
    /// A static object, by id.
    Object(u32),
    /// A local of a function, by the ids of both.
    Local(u32, u32),
    /// A member of a structure, by the id of that and by position.
    Member(u32, u32),
}

/// Some neighbouring tracked cells: from a multiple of 16 on 16 of them, or those that are left. Rows share sets.
#[derive(Drop)]
pub struct Row<I> {
    pub cells: List<Shared<Abs<I>>>,
}

/// What is known wherever a run is at a point.
#[derive(Drop)]
pub struct PointFact<I> {
    /// Whether the flag may be off.
    pub off: bool,
    /// Whether the flag may be on.
    pub on: bool,
    /// The sets of the function's registers, in order. Points share sets.
    pub locals: List<Shared<Abs<I>>>,
    /// The sets of the tracked cells, row by row. Points share rows.
    pub rows: List<Shared<Row<I>>>,
    /// The registers that still equal a tracked cell, with that cell, both by their position.
    pub same: List<(u32, u32)>,
}

/// Facts about all runs of a program.
#[derive(Drop)]
pub struct Facts<I> {
    /// The keys of the program.
    pub keys: List<Key>,
    /// By key: what its cells may have in the whole run.
    pub whole: List<Abs<I>>,
    /// By function: what it may give. Of one that gives nothing it is the empty set of integers.
    pub results: List<Abs<I>>,
    /// By function: whether main reaches it.
    pub by_main: List<bool>,
    /// By function: whether a handler reaches it.
    pub by_handler: List<bool>,
    /// By function: the set of the running levels at which it may run.
    pub levels: List<u8>,
    /// By function: the set of the levels of the innermost handlers from which it may be reached.
    pub from: List<u8>,
    /// By key: whether the code of a handler may read it.
    pub handler_reads: List<bool>,
    /// By key: whether the code of a handler may write it.
    pub handler_writes: List<bool>,
    /// By key: the set of the levels of the innermost handlers whose code may read it.
    pub read_levels: List<u8>,
    /// By key: the set of the levels of the innermost handlers whose code may write it.
    pub write_levels: List<u8>,
    /// By point: what is known there. None where no run comes to the point.
    pub at: List<Option<PointFact<I>>>,
}

impl<I> PointFact<I> {
    /// The set of a tracked cell, by its position among these.
    pub fn cell(&self, cell: u32) -> Option<&Abs<I>>
        ensures { option_copied result ≡ cell_of self.now cell }
    {
        let row = at(self.rows.all(), cell as usize / ROW_LENGTH)?;
        let set = at(row.get().cells.all(), cell as usize % ROW_LENGTH)?;
        Some(set.get())
    }
}

impl<I> Facts<I> {
    /// What is known at a point.
    fn fact(&self, point: u32) -> Option<&PointFact<I>>
        ensures { option_copied result ≡ fact_at self.now point }
    {
        at(self.at.all(), point as usize)?.as_ref()
    }

    /// The point's set of a tracked cell, by its position among these. None where the point is not reached.
    pub fn cell(&self, point: u32, cell: u32) -> Option<&Abs<I>>
        ensures { option_copied result ≡ cell_at self.now point cell }
    {
        self.fact(point)?.cell(cell)
    }

    /// The point's set of a register, by its position among its function's. None where the point is not reached.
    pub fn local(&self, point: u32, local: u32) -> Option<&Abs<I>>
        ensures { option_copied result ≡ local_at self.now point local }
    {
        let set = at(self.fact(point)?.locals.all(), local as usize)?;
        Some(set.get())
    }
}
