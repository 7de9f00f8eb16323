//! Slots as plans see them.

ghost use Rattle.std.specs.Prelude.{◌≡◌};
ghost use Rattle.cc_plan_legal.specs.Candidates.{candidate_of as candidate_of_slot, form_by, form_number};

use cc_slots_types::{Reason, Slot};

/// How a slot is told by codes.
#[derive(Clone, Copy)]
pub enum Form {
    /// By some bits of a word.
    Field,
    /// By none, since it has one value alone.
    Const,
    /// By packed elements.
    Array,
}

impl Form {
    pub fn number(self) -> u64
        ensures { result ≡ form_number self }
    {
        match self {
            Form::Field => 0,
            Form::Const => 1,
            Form::Array => 2,
        }
    }
}

/// A slot as a plan sees it.
#[derive(Clone, Copy)]
pub struct Candidate {
    /// The number of its group.
    pub group: u64,
    /// How it is told by codes, where it is coded.
    pub form: Form,
    /// The bits of its code.
    pub bits: u32,
    /// The bytes of one of its scalars.
    pub bytes: u32,
    /// How many scalars it has in RAM.
    pub count: u32,
    /// Why it is not coded. None where it may be.
    pub reason: Option<Reason>,
}

fn form_by(bits: u32, is_array: bool) -> Form
    ensures { result ≡ form_by bits is_array }
{
    if bits == 0 {
        Form::Const
    } else if is_array {
        Form::Array
    } else {
        Form::Field
    }
}

/// A slot, which is an array or is none, as a plan sees it.
pub fn candidate_of(slot: &Slot, is_array: bool) -> Candidate
    ensures { result ≡ candidate_of_slot slot.now is_array }
{
    Candidate {
        group: slot.group(),
        form: form_by(slot.bits, is_array),
        bits: slot.bits,
        bytes: slot.bytes,
        count: slot.count,
        reason: slot.reason,
    }
}
