//! Why constructs in a text have no meaning.

ghost use Rattle.std.specs.Prelude.{◌≡◌};
ghost use Rattle.cc_specifiers.specs.Places.{breach_at_of};
ghost use Rattle.cc_specifiers.specs.declared.fault.BreachAt.TheVariants.{NoMemory as NoRoom};

use cc_operands::{Breach, Rule};
use std::alloc::AllocFailed;

/// Why constructs in a text have no meaning.
#[derive(Clone, Copy)]
pub enum BreachAt {
    /// The construct that begins at this byte of the text breaks the rule.
    Breaks(u32, Rule),
    /// Memory ran out.
    NoMemory,
}

impl From<cc_program::num::NoMemory> for BreachAt {
    ghost from_gives = { λ _ e. e ≡ NoRoom };

    fn from(_error: cc_program::num::NoMemory) -> BreachAt {
        BreachAt::NoMemory
    }
}

impl<T: Drop> From<AllocFailed<T>> for BreachAt {
    ghost from_gives = { λ _ e. e ≡ NoRoom };

    fn from(_error: AllocFailed<T>) -> BreachAt {
        BreachAt::NoMemory
    }
}

/// Why a construct has no meaning that begins at a place, and whose parts have one.
pub fn breach_at(at: u32, broken: Breach) -> BreachAt
    ensures { result ≡ breach_at_of at broken }
{
    match broken {
        Breach::Breaks(rule) => BreachAt::Breaks(at, rule),
        Breach::NoMemory => BreachAt::NoMemory,
    }
}
