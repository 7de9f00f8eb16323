/// Which full expression of a statement is worked (C99 6.8).
#[derive(Clone, Copy, Debug, PartialEq, Eq)]
pub enum Phase {
    /// The first one, or the only one.
    First,
    /// The test of a loop's turn.
    Test,
    /// What a `for` does behind its body.
    Again,
}
