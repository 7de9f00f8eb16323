//! Why facts are not taken.

use crate::broken::Broken;

/// Why facts are not taken.
#[derive(Drop)]
pub enum Denied {
    /// They break a constraint: the first one.
    Broken(Broken),
    /// Memory ran out.
    NoMemory,
}
