ghost use Rattle.std.specs.Prelude.{◌≡◌};
ghost use Rattle.cc_tree.specs.declared.stop.Stop.TheVariants.{NoMemory as NoRoom};

use cc_lex::Token;
use std::alloc::{AllocError, AllocFailed};

/// Why a construct was not read. A place is told by how many tokens stand from it on.
#[derive(Drop)]
pub enum Stop {
    /// It has more nodes on a branch than there is room for.
    Deep(usize),
    /// It is none.
    Wrong(usize),
    /// Memory ran out.
    NoMemory,
}

impl From<AllocError> for Stop {
    ghost from_gives = { λ _ e. e ≡ NoRoom };

    fn from(_error: AllocError) -> Stop {
        Stop::NoMemory
    }
}

impl<T: Drop> From<AllocFailed<T>> for Stop {
    ghost from_gives = { λ _ e. e ≡ NoRoom };

    fn from(_error: AllocFailed<T>) -> Stop {
        Stop::NoMemory
    }
}

impl From<cc_num::NoMemory> for Stop {
    ghost from_gives = { λ _ e. e ≡ NoRoom };

    fn from(_error: cc_num::NoMemory) -> Stop {
        Stop::NoMemory
    }
}

/// What was read, and the tokens behind it; or why not.
pub type Reading<'t, T> = Result<(T, &'t [Token]), Stop>;
