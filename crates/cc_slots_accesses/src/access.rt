//! What is known of an access.

/// A statement that accesses a key, and what is known where it stands.
#[derive(Clone, Copy)]
pub struct Access {
    pub point: u32,
    /// Whether it writes; else it reads.
    pub writes: bool,
    /// Whether the place is volatile.
    pub is_volatile: bool,
    /// Whether the place is an element of an array that may lie outside it.
    pub may_be_outside: bool,
    /// Whether a run may come to the point.
    pub is_reached: bool,
    /// Whether the flag may be on there.
    pub may_be_on: bool,
    /// Whether the function is reached from a handler.
    pub by_handler: bool,
    /// The levels at which the function may run.
    pub levels: u8,
    /// The levels of the innermost handlers from which it may be reached.
    pub from: u8,
}
