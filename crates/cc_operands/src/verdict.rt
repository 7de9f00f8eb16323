//! Why a construct has no meaning whose parts have one.

ghost use Rattle.std.specs.Prelude.{◌≡◌};
ghost use Rattle.cc_operands.specs.declared.verdict.Breach.TheVariants.{NoMemory as NoRoom};

use crate::rule::Rule;
use std::alloc::AllocFailed;

/// Why a construct has no meaning whose parts have one.
#[derive(Clone, Copy)]
pub enum Breach {
    /// It breaks the rule.
    Breaks(Rule),
    /// Memory ran out.
    NoMemory,
}

impl From<cc_program::num::NoMemory> for Breach {
    ghost from_gives = { λ _ e. e ≡ NoRoom };

    fn from(_error: cc_program::num::NoMemory) -> Breach {
        Breach::NoMemory
    }
}

impl<T: Drop> From<AllocFailed<T>> for Breach {
    ghost from_gives = { λ _ e. e ≡ NoRoom };

    fn from(_error: AllocFailed<T>) -> Breach {
        Breach::NoMemory
    }
}
