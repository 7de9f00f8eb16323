ghost use Rattle.std.specs.Prelude.{◌≡◌};
ghost use Rattle.cc_tree.specs.declared.fault.GramFault.TheVariants.{NoMemory};

use cc_num::Name;
use std::alloc::{AllocError, AllocFailed};

/// Why tokens have no tree: the cause, and the offset of the token at which it is found.
#[derive(Debug, Drop)]
pub enum GramFault {
    /// The first word of C or GNU C that is outside the subset, and its offset.
    Outside(Name, u32),
    /// The tokens are no sentence of height at most 128.
    TooDeep(u32),
    /// The tokens are no sentence.
    Syntax(u32),
    /// Memory ran out.
    NoMemory,
}

impl From<AllocError> for GramFault {
    ghost from_gives = { λ _ e. e ≡ NoMemory };

    fn from(_error: AllocError) -> GramFault {
        GramFault::NoMemory
    }
}

impl<T: Drop> From<AllocFailed<T>> for GramFault {
    ghost from_gives = { λ _ e. e ≡ NoMemory };

    fn from(_error: AllocFailed<T>) -> GramFault {
        GramFault::NoMemory
    }
}
