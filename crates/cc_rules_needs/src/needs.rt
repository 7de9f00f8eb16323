//! What constraints ask of facts: that slots of them have at least some parts.

use cc_places::Abs;

/// What facts have a part of. Keys, functions and points are told by their numbers; registers and tracked cells by their position.
#[derive(Clone, Copy, Debug, PartialEq, Eq)]
pub enum Slot {
    /// By key: the set of its cells in the whole run.
    Whole(u32),
    /// By key: whether the code of a handler may read it.
    HandlerReads(u32),
    /// By key: whether the code of a handler may write it.
    HandlerWrites(u32),
    /// By key: the levels of the handlers whose code may read it.
    ReadLevels(u32),
    /// By key: the levels of the handlers whose code may write it.
    WriteLevels(u32),
    /// By function: what it may give.
    Result(u32),
    /// By function: whether main reaches it.
    ByMain(u32),
    /// By function: whether a handler reaches it.
    ByHandler(u32),
    /// By function: the running levels.
    Levels(u32),
    /// By function: the levels of the handlers from which it is reached.
    From(u32),
    /// By point: how the flag may be. A point that is reached has one.
    Flag(u32),
    /// By point: the set of a register.
    LocalAt(u32, u32),
    /// By point: the set of a tracked cell.
    CellAt(u32, u32),
    /// By point, register and tracked cell: that the point is reached, and that these are no pair there.
    Apart(u32, u32, u32),
}

/// How much of a slot there is.
#[derive(Drop)]
pub enum Part<I> {
    /// A mark.
    Mark(bool),
    /// A set of levels.
    LevelSet(u8),
    /// Whether the flag may be off, and whether it may be on.
    Flags(bool, bool),
    /// A set of values. None where there is none, or none is needed.
    Values(Option<Abs<I>>),
}

/// What is needed: that a slot has at least a part.
pub type Need<I> = (Slot, Part<I>);
