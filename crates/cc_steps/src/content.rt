use cc_program::Value;

/// What a cell holds.
#[derive(Drop)]
pub enum Content {
    /// Nothing: its activation has ended.
    Gone,
    /// Nothing yet: it was never written.
    Unwritten,
    Holds(Value),
}
