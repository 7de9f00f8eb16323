use cc_program::num::List;

/// A point: where an activation of a function stands before a statement, or at the return at the function's end.
#[derive(Debug, Drop)]
pub struct Point {
    /// The function, by id.
    pub func: u32,
    /// From the body inwards, the position of the statement in each list that it stands in. The two lists of an `if`
    /// count as one list, one after the other, and so do the bodies of a `switch`. At the function's end it is the
    /// body's length alone.
    pub path: List<u32>,
    /// The points to which control goes from here, by number, ascending and without repeats. A call returns to the
    /// point behind it, and a return goes to the exit of its own function.
    pub next: List<u32>,
}

/// The points of a program, function by function: those of the statements in text order, the entry first, and then the
/// exit, which is the entry as well where the body is empty. A point's number is its position.
#[derive(Debug, Drop)]
pub struct Flow {
    pub points: List<Point>,
    /// The number of each function's entry.
    pub first: List<u32>,
}

/// Why a program has no `Flow`.
#[derive(Clone, Copy, Debug, PartialEq, Eq)]
pub enum FlowEnd {
    /// It has more than 65,536 points: so many, up to the end of the type.
    Limit(u64),
    /// Memory ran out.
    NoMemory,
}
