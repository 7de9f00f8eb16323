use cc_program::num::List;
use cc_program::{Address, Cell, Value};

/// How a cell is read.
#[derive(Clone, Copy)]
pub struct Manner {
    /// Whether the access is an event of the trace: one to a device, or through a volatile-qualified type (C99 6.7.3, 6).
    pub is_event: bool,
    /// Whether a cell that was never written gives a bad value; else it traps.
    pub may_be_bad: bool,
}

/// A step that a full expression asks for.
#[derive(Drop)]
pub enum Action {
    Read(Cell, Manner),
    /// A write, and whether it is an event of the trace.
    Write(Cell, bool, Value),
    /// A branch step of `&&`, `||` or `?:`; none where the condition is bad.
    Choose(Option<bool>),
    /// A call of what an address names.
    Call(Address, List<Value>),
    /// The interrupt flag is set, or cleared.
    Flag(bool),
    /// The flag is given, and cleared.
    Save,
}
