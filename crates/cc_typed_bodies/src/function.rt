use cc_program::num::{Name, Target};
use cc_terms::syntax::{CType, Roles};

/// What is the same in all of a function's body.
#[derive(Clone, Copy)]
pub struct Function<'p> {
    pub target: &'p Target,
    pub roles: &'p Roles,
    /// The names that the unit defines as objects.
    pub defined: &'p [Name],
    /// The type of what the function gives.
    pub result: &'p CType,
}
