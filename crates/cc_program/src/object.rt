use crate::{CType, Leaf};
use cc_num::{IntType, List, Name};

/// A register of the chip: a name, or an address where it has none. Each access to it is volatile (C99 6.7.3, 6).
#[derive(Debug, Drop)]
pub struct Device {
    pub name: Option<Name>,
    /// The address of a device without a name; 0 where it has one.
    pub number: u64,
    pub int: IntType,
    /// Whether the program may only read it.
    pub constant: bool,
}

/// A static object (C99 6.2.4, 3).
#[derive(Drop)]
pub struct Object {
    pub name: Name,
    pub ctype: CType,
    /// The first value of each scalar, in order of path. It is empty exactly where every scalar starts as
    /// zero or null (C99 6.7.8, 10).
    pub init: List<Leaf>,
}
