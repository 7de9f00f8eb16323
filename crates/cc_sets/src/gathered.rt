ghost use Rattle.cc_sets.specs.Ranges.{IsSpread};

use cc_explicit::Explicit;

/// The ends of more numbers than an explicit set may have.
#[derive(Clone, Copy)]
pub(crate) struct Spread {
    pub(crate) low: i128,
    pub(crate) high: i128,
    pub(crate) ghost wide: { IsSpread low high },
}

/// Numbers that are gathered one by one: the members so far, and once there are too many of them,
/// their ends alone.
#[derive(Drop)]
pub(crate) struct Gathered {
    pub(crate) members: Explicit,
    pub(crate) spread: Option<Spread>,
}
