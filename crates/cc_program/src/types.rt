mod copies;
mod qualifiers;

use cc_num::{Boxed, IntType, List, Name};

/// A type with its qualifiers (C99 6.2.5, 6.7.3). Those of an array stand at its element (6.7.3, 8).
#[cycle(types)]
#[derive(Drop)]
pub struct CType {
    pub constant: bool,
    pub volatile: bool,
    pub shape: Shape,
}

/// A type without its qualifiers (C99 6.2.5).
#[cycle(types)]
#[derive(Drop)]
pub enum Shape {
    Void,
    Int(IntType),
    /// A pointer to the type.
    Pointer(Boxed<CType>),
    /// An array of so many elements of the type.
    Array(Boxed<CType>, u32),
    /// A structure type, by id.
    Struct(u32),
    Func(Boxed<Sig>),
}

/// The type of a function: what it returns, and what its parameters take, without qualifiers of
/// their own (C99 6.7.5.3, 15).
#[cycle(types)]
#[derive(Drop)]
pub struct Sig {
    pub result: CType,
    pub params: List<CType>,
}

/// A structure (C99 6.7.2.1): its tag and its members, in order. It has none exactly where it is
/// only named, and so incomplete (6.2.5, 22).
#[derive(Drop)]
pub struct Structure {
    pub tag: Name,
    pub members: List<(Name, CType)>,
}
