use crate::Range;
use cc_explicit::Explicit;

/// A set of numbers: an explicit one, or all numbers of some bits.
#[derive(Drop)]
pub enum Vals {
    Few(Explicit),
    Many(Range),
}
