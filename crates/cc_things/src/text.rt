use cc_program::num::{List, Name};
use cc_unit::TypedUnit;

/// What linking takes of one source.
#[derive(Drop)]
pub struct Text {
    pub unit: TypedUnit,
    /// The identifiers among its tokens, at least once each: a name that linking makes is none of them.
    pub identifiers: List<Name>,
}
