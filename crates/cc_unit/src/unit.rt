use cc_program::num::{Boxed, List, Name};
use cc_program::{CType, Device, Entry, Func, Leaf};

/// The part of a program that one source gives. A static object, a device or a function is named by its position
/// among `names`, a structure by its position among `structures`.
#[derive(Drop)]
pub struct TypedUnit {
    /// Those that are only named come first, in order of first appearance; the others follow in the order of their
    /// closing braces. So one comes before each that contains it.
    pub structures: List<UnitStructure>,
    /// In order of first appearance.
    pub names: List<UnitName>,
}

/// A structure type (C99 6.7.2.1).
#[derive(Drop)]
pub struct UnitStructure {
    pub tag: Option<Name>,
    /// Of a structure without a tag, the first name that the typedef which defines it declares.
    pub alias: Option<Name>,
    /// None where the structure is only named, and so incomplete (C99 6.2.5, 22).
    pub members: Option<List<(Name, CType)>>,
}

/// Whether declarations of one name speak of one object or function (C99 6.2.2).
#[derive(Clone, Copy)]
pub enum Linkage {
    /// In all sources.
    External,
    /// In one source. Strings and devices without a name are of this kind.
    Internal,
    /// Not at all: a static object of a block.
    Local,
}

/// A static object, a device or a function, as one source knows it.
#[derive(Drop)]
pub struct UnitName {
    /// None for a string, and for a device that an address names.
    pub name: Option<Name>,
    pub linkage: Linkage,
    /// Its type, as it was declared.
    pub ctype: CType,
    /// The offset of the first definition, tentative ones included (C99 6.9.2).
    pub first: Option<u32>,
    /// How many definitions there are. All tentative ones count as one, and as none beside another.
    pub count: u32,
    pub kind: UnitKind,
}

/// What a name is that has a place in memory of its own, or in the chip.
#[derive(Drop)]
pub enum UnitKind {
    /// An object, with the first value of each scalar in order of path; with none where each is zero or null.
    Object(List<Leaf>),
    Device(Device),
    /// A function: whether its attributes make it a handler, and the function itself where it has a body here.
    Func(Option<Entry>, Option<Boxed<Func>>),
}
