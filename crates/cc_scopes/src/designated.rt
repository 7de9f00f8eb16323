use cc_operands::syntax::CType;

/// What an identifier designates (C99 6.2.1, 1).
#[derive(Drop)]
pub enum Designated {
    /// A static object, a device or a function, by its number among the names.
    Linked(u32),
    /// An automatic object, by its number among the function's locals, with its declared type.
    Automatic(u32, CType),
    /// The type that a typedef names.
    TypeNamed(CType),
    /// The value of an enumeration constant.
    Enumerator(i128),
}

/// What a tag designates; tags have a space of their own (C99 6.2.3, 1).
#[derive(Clone, Copy)]
pub enum Tagged {
    /// A structure, by its number.
    StructureTag(u32),
    EnumerationTag,
    /// An enumeration up to the end of its list (C99 6.2.1, 7).
    UnfinishedEnumeration,
}
