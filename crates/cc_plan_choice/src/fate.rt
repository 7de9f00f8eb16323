//! What becomes of a slot.

ghost use Rattle.std.specs.Prelude.{◌≡◌, IsSorted};
ghost use Rattle.std.specs.Ordering.{nat_cmp};
ghost use Rattle.cc_plan_choice.specs.Fates.{fate_by_form, fate_number, fate_of as fate_of_slot, is_wanted as is_wanted_of};

use crate::order::is_among;
use cc_plan_legal::{Candidate, Form};

/// What becomes of a slot.
#[derive(Clone, Copy)]
pub(crate) enum Fate {
    /// It has a reason, and stays as it is.
    Untouched,
    /// It has none, and is not taken.
    Left,
    /// It is taken, and has one value alone.
    Const,
    /// It is taken, and its elements are packed.
    Array,
    /// It is taken, and has a field of a word.
    Field,
    /// It is taken, and would have a field of a word that saves nothing.
    Dissolved,
}

impl Fate {
    pub(crate) fn number(self) -> u8
        ensures { result ≡ fate_number self }
    {
        match self {
            Fate::Untouched => 0,
            Fate::Left => 1,
            Fate::Const => 2,
            Fate::Array => 3,
            Fate::Field => 4,
            Fate::Dissolved => 5,
        }
    }
}

fn fate_by_form(form: Form, has_field: bool) -> Fate
    ensures { result ≡ fate_by_form form has_field }
{
    match form {
        Form::Const => Fate::Const,
        Form::Array => Fate::Array,
        Form::Field => {
            if has_field {
                Fate::Field
            } else {
                Fate::Dissolved
            }
        }
    }
}

/// What becomes of a slot, where these are taken, and these of them have fields.
pub(crate) fn fate_of(taken: &[u32], fielded: &[u32], slot: u32, candidate: &Candidate) -> Fate
    requires taken { IsSorted nat_cmp taken.now }
    requires fielded { IsSorted nat_cmp fielded.now }
    ensures { result ≡ fate_of_slot taken.now fielded.now slot candidate.now }
{
    if is_among(taken, slot) {
        fate_by_form(candidate.form, is_among(fielded, slot))
    } else if candidate.reason.is_none() {
        Fate::Left
    } else {
        Fate::Untouched
    }
}

/// Whether a slot is taken, and is to have a field.
pub(crate) fn is_wanted(taken: &[u32], slot: u32, candidate: &Candidate) -> bool
    requires { IsSorted nat_cmp taken.now }
    ensures { result ≡ is_wanted_of taken.now slot candidate.now }
{
    candidate.form.number() == 0 && is_among(taken, slot)
}
