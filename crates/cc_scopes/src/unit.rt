use cc_operands::syntax::CType;
use cc_program::num::Name;
use cc_unit::{Linkage, UnitKind};

/// An object with static storage, a device or a function, as far as it is known.
#[derive(Drop)]
pub struct Declared {
    /// None for a string, and for a device that an address names.
    pub name: Option<Name>,
    pub linkage: Linkage,
    pub ctype: CType,
    /// The offset of the first definition, tentative ones included (C99 6.9.2).
    pub first: Option<u32>,
    /// Whether a tentative definition stands (C99 6.9.2, 2).
    pub tentative: bool,
    /// How many other definitions there are.
    pub definitions: u32,
    pub kind: UnitKind,
}
