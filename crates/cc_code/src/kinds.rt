//! The kinds of codings.

/// How a value is told by a code.
#[derive(Clone, Copy, Debug, PartialEq, Eq)]
pub enum Coding {
    /// There is one value, and no code.
    Const,
    /// The code is the value.
    Direct,
    /// The code is how far the value is above this least one.
    Biased(i128),
    /// The code is the position of the value among the members.
    Table,
}
