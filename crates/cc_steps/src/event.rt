use cc_program::{Cell, Value};

/// How a run stands.
#[derive(Clone, Copy, Debug, PartialEq, Eq)]
pub enum End {
    Going,
    /// The first activation of main has returned this, 0 where main is void or was left at its end.
    Exit(i128),
    Trap,
    /// A device was read, and no input was left.
    Starved,
}

/// What can be seen of a run.
#[derive(Debug, Drop)]
pub enum Event {
    Read(Cell, Value),
    Write(Cell, Value),
    /// A handler entered, by the function's id.
    Enter(u32),
}

/// What a turn was.
#[derive(Clone, Copy, Debug, PartialEq, Eq)]
pub enum Took {
    Entered,
    Stepped,
    /// Nothing, since the run has ended.
    Ended,
}
