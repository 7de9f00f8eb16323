//! Why a construct has no meaning, with its place.

ghost use Rattle.std.specs.Prelude.{◌≡◌};
ghost use Rattle.cc_scopes.specs.Outcomes.{stopped};
ghost use Rattle.cc_scopes.specs.declared.verdict.Stop.TheVariants.{NoMemory as NoRoom};

use cc_operands::{Breach, Rule};
use cc_program::num::NoMemory;
use std::alloc::{AllocError, AllocFailed};

/// A rule that a construct breaks, and the offset at which the construct begins.
#[derive(Clone, Copy)]
pub struct Fault {
    pub rule: Rule,
    pub at: u32,
}

/// Why a construct has no meaning.
#[derive(Clone, Copy)]
pub enum Stop {
    /// It breaks a rule, or a part of it does.
    Broken(Fault),
    /// Memory ran out.
    NoMemory,
}

impl From<NoMemory> for Stop {
    ghost from_gives = { λ _ e. e ≡ NoRoom };

    fn from(_error: NoMemory) -> Stop {
        Stop::NoMemory
    }
}

impl From<AllocError> for Stop {
    ghost from_gives = { λ _ e. e ≡ NoRoom };

    fn from(_error: AllocError) -> Stop {
        Stop::NoMemory
    }
}

impl<T: Drop> From<AllocFailed<T>> for Stop {
    ghost from_gives = { λ _ e. e ≡ NoRoom };

    fn from(_error: AllocFailed<T>) -> Stop {
        Stop::NoMemory
    }
}

/// What a construct breaks itself, at its place.
pub fn placed<T>(at: u32, judged: Result<T, Breach>) -> Result<T, Stop>
    ensures { result ≡ stopped at judged }
{
    match judged {
        Ok(x) => Ok(x),
        Err(Breach::Breaks(rule)) => Err(Stop::Broken(Fault { rule, at })),
        Err(Breach::NoMemory) => Err(Stop::NoMemory),
    }
}
