use cc_program::num::Name;

/// What is known of a structure type beside its tag, its members and its layout.
#[derive(Drop)]
pub struct Standing {
    pub tagged: bool,
    /// Of a structure without a tag, the first name that the typedef which defines it declares.
    pub alias: Option<Name>,
    /// Whether its members are known (C99 6.2.5, 22).
    pub complete: bool,
}
