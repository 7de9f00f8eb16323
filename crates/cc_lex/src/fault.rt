ghost use Rattle.std.specs.Prelude.{◌≡◌};
ghost use Rattle.cc_lex.specs.declared.fault.LexFault.TheVariants.{NoMemory};

use std::alloc::{AllocError, AllocFailed};

/// Why a text has no tokens: the first place where there is none, in bytes from the start of the text,
/// and the cause there.
#[derive(Clone, Copy, Debug)]
pub enum LexFault {
    /// A byte that begins no token and no separator, or a `#` that isn't the first of its line.
    BadByte(u32),
    /// A `/*` without its `*/`.
    OpenComment(u32),
    /// A literal that isn't closed on its line, or a character constant of no or of several elements,
    /// at its quote.
    OpenText(u32),
    /// A number that is no integer constant or is out of range, or, at its backslash, an escape that is
    /// unknown or above 255.
    BadNumber(u32),
    /// A line that begins with `#` and isn't skipped, at its `#`.
    Directive(u32),
    /// Memory ran out.
    NoMemory,
}

impl From<AllocError> for LexFault {
    ghost from_gives = { λ _ e. e ≡ NoMemory };

    fn from(_error: AllocError) -> LexFault {
        LexFault::NoMemory
    }
}

impl<T: Drop> From<AllocFailed<T>> for LexFault {
    ghost from_gives = { λ _ e. e ≡ NoMemory };

    fn from(_error: AllocFailed<T>) -> LexFault {
        LexFault::NoMemory
    }
}
