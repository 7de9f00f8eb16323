mod comparisons;
mod copies;

use cc_num::List;

/// An object that a declaration names: a static one, by id, or a local of an activation of a function
/// (C99 6.2.4).
#[derive(Clone, Copy, Debug, PartialEq, Eq)]
pub enum Root {
    Static(u32),
    Auto {
        activation: u64,
        func: u32,
        local: u32,
    },
}

/// A step into an object: to a member of a structure, or to an element of an array, by position.
#[derive(Clone, Copy, Debug, PartialEq, Eq)]
pub enum Part {
    Member(u32),
    Index(u32),
}

/// The value of a pointer (C99 6.2.5, 20; 6.3.2.3).
#[derive(Debug, Drop)]
pub enum Address {
    /// The null pointer.
    Null,
    /// A function, by id.
    Func(u32),
    /// An element of the array of `count` elements that the path leads to, or one past the last of them
    /// where the index is the count. An object that is no element is an array of one (C99 6.5.6, 7).
    At {
        object: Root,
        path: List<Part>,
        index: u32,
        count: u32,
    },
}

/// The value of a scalar (C99 6.2.5, 21).
#[derive(Debug, Drop)]
pub enum Value {
    Int(i128),
    Place(Address),
}

/// The first value of a scalar of a static object.
#[derive(Debug, Drop)]
pub enum Leaf {
    Int(i128),
    Place(Address),
}

/// A scalar that a run accesses: a device, by id, or the one that the path leads to.
#[derive(Debug, Drop)]
pub enum Cell {
    Device(u32),
    At { object: Root, path: List<Part> },
}
