//! The first reason that holds.

ghost use Rattle.std.specs.Prelude.{◌≡◌};
ghost use Rattle.cc_slots.specs.First.{first_reason as first_reason_of};

use cc_slots_types::Reason;

/// Of each reason whether it holds.
#[derive(Clone, Copy)]
pub struct Findings {
    pub volatile: bool,
    pub constant: bool,
    pub addressed: bool,
    pub automatic: bool,
    pub torn: bool,
    pub index: bool,
    pub wide: bool,
}

/// The first reason that holds.
pub fn first_reason(f: Findings) -> Option<Reason>
    ensures { result ≡ first_reason_of f }
{
    if f.volatile {
        Some(Reason::Volatile)
    } else if f.constant {
        Some(Reason::Const)
    } else if f.addressed {
        Some(Reason::Addressed)
    } else if f.automatic {
        Some(Reason::Automatic)
    } else if f.torn {
        Some(Reason::Torn)
    } else if f.index {
        Some(Reason::Index)
    } else if f.wide {
        Some(Reason::Wide)
    } else {
        None
    }
}
