//! Why texts are no program.

ghost use Rattle.std.specs.Prelude.{◌≡◌};
ghost use Rattle.cc_read.specs.Faults.{for_lex, for_gram, for_types, for_link};
ghost use Rattle.cc_read.specs.declared.refusal.ReadRefusal.TheVariants.{NoMemory as NoRoom};

use cc_gram::GramFault;
use cc_link::{LinkEnd, LinkFault};
use cc_program::num::NoMemory;
use cc_type::TypeFault;
use cc_type::lex::LexFault;

/// Why a text, or texts together, are no program. Want of memory is told by a variant of its own, wherever memory ran out.
#[derive(Debug, Drop)]
pub enum ReadRefusal {
    /// The text has no tokens.
    Lex(LexFault),
    /// Its tokens are no sentence, or one that is too high.
    Gram(GramFault),
    /// The sentence breaks a type rule.
    Types(TypeFault),
    /// The texts do not link to a program.
    Link(LinkFault),
    NoMemory,
}

/// Why texts are no program, and the number of the text, from 0. It is 0 where the texts do not link.
#[derive(Debug, Drop)]
pub struct Refusal {
    pub file: u32,
    pub why: ReadRefusal,
}

impl From<LexFault> for ReadRefusal {
    ghost from_gives = { λ e why. why ≡ for_lex e };

    fn from(fault: LexFault) -> ReadRefusal {
        match fault {
            LexFault::NoMemory => ReadRefusal::NoMemory,
            fault => ReadRefusal::Lex(fault),
        }
    }
}

impl From<GramFault> for ReadRefusal {
    ghost from_gives = { λ e why. why ≡ for_gram e };

    fn from(fault: GramFault) -> ReadRefusal {
        match fault {
            GramFault::NoMemory => ReadRefusal::NoMemory,
            fault => ReadRefusal::Gram(fault),
        }
    }
}

impl From<TypeFault> for ReadRefusal {
    ghost from_gives = { λ e why. why ≡ for_types e };

    fn from(fault: TypeFault) -> ReadRefusal {
        match fault {
            TypeFault::NoMemory => ReadRefusal::NoMemory,
            fault => ReadRefusal::Types(fault),
        }
    }
}

impl From<LinkEnd> for ReadRefusal {
    ghost from_gives = { λ e why. why ≡ for_link e };

    fn from(end: LinkEnd) -> ReadRefusal {
        match end {
            LinkEnd::Fault(fault) => ReadRefusal::Link(fault),
            LinkEnd::NoMemory => ReadRefusal::NoMemory,
        }
    }
}

impl From<NoMemory> for ReadRefusal {
    ghost from_gives = { λ _ why. why ≡ NoRoom };

    fn from(_error: NoMemory) -> ReadRefusal {
        ReadRefusal::NoMemory
    }
}

impl From<NoMemory> for Refusal {
    ghost from_gives = { λ _ refusal. refusal.why ≡ NoRoom };

    fn from(_error: NoMemory) -> Refusal {
        Refusal {
            file: 0,
            why: ReadRefusal::NoMemory,
        }
    }
}
