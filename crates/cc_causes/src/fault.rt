use cc_program::num::Name;

/// Why typed units are no program. Each but NoMain carries a name, and the first one that it holds of.
#[derive(Debug, Drop)]
pub enum LinkFault {
    /// A name with external linkage has two types in two sources (C99 6.2.7).
    TypesDiffer(Name),
    /// A name has two definitions; a tentative one (6.9.2) is one of its source.
    Twice(Name),
    /// A name is used and has no definition, and is no device (6.9).
    Undefined(Name),
    /// There is no function main with external linkage (5.1.2.2.1).
    NoMain,
    /// A handler is no defined `void f(void)`, or is main, or is called, or its address is taken.
    BadHandler(Name),
}
