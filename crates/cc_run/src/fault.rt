ghost use Rattle.std.specs.Prelude.{◌≡◌, ◌+◌, ◌-◌, ◌^◌, min};
ghost use Rattle.cc_run.specs.declared.fault.RowFault.TheVariants as fault;

use cc_program::num::NoMemory;
use std::alloc::{AllocError, AllocFailed};

/// Why a text gives no list.
#[derive(Clone, Copy, Debug, PartialEq, Eq)]
pub enum RowFault {
    /// The first row that is not of the form, from 1. The number stands still at the greatest of its type.
    Row(u32),
    NoMemory,
}

/// The number of the row behind so many; it stands still at the greatest.
pub(crate) fn row_behind(count: usize) -> u32
    ensures { result ≡ min (count + 1) (2 ^ 32 - 1) }
{
    if count < 0xffff_ffff {
        count as u32 + 1
    } else {
        0xffff_ffff
    }
}

impl From<NoMemory> for RowFault {
    ghost from_gives = { λ _ why. why ≡ fault.NoMemory };

    fn from(_error: NoMemory) -> RowFault {
        RowFault::NoMemory
    }
}

impl From<AllocError> for RowFault {
    ghost from_gives = { λ _ why. why ≡ fault.NoMemory };

    fn from(_error: AllocError) -> RowFault {
        RowFault::NoMemory
    }
}

impl<T: Drop> From<AllocFailed<T>> for RowFault {
    ghost from_gives = { λ _ why. why ≡ fault.NoMemory };

    fn from(_error: AllocFailed<T>) -> RowFault {
        RowFault::NoMemory
    }
}
