//! What an expression gives with a register at each of some numbers.

ghost use Rattle.std.specs.Prelude.{◌≡◌, ◌↔◌, None, IfOk, IfSome, IsTrue};
ghost use Rattle.std.specs.List.{Contains};
ghost use Rattle.cc_rules_tests.specs.Trials.{IsTriedAt};
ghost use Rattle.cc_rules_tests.specs.declared.tried.Tried.{Tried as TriedOf};

use cc_program::num::NoMemory;
use cc_rules_flows::places::Abs;
use cc_rules_flows::state_shared::Shared;

/// A register, some numbers, and what an expression gives with the register at each.
#[derive(Drop)]
pub struct Tried<I> {
    pub(crate) register: u32,
    pub(crate) numbers: Vec<i128>,
    pub(crate) values: Vec<Abs<I>>,
}

impl<I> Tried<I> {
    /// Whether it is of this register, at these numbers.
    fn is_at(&self, r: u32, numbers: &[i128]) -> bool
        ensures { IsTrue result ↔ IsTriedAt r numbers.now self.now }
    {
        self.register == r && self.numbers.as_slice() == numbers
    }
}

/// The one that is of this register, at these numbers.
pub(crate) fn tried_at<I: Drop>(
    all: &[Shared<Tried<I>>],
    r: u32,
    numbers: &[i128],
) -> Result<Option<Shared<Tried<I>>>, NoMemory>
    ensures there { IfOk result (λ found. IfSome found (λ t. Contains all.now t × IsTriedAt r numbers.now t)) }
    ensures none { IfOk result (λ found. found ≡ None → (t : TriedOf I) → Contains all.now t → IsTriedAt r numbers.now t → ⊥) }
{
    for tried in all {
        if tried.get().is_at(r, numbers) {
            let found = tried.share()?;
            return Ok(Some(found));
        }
    }
    Ok(None)
}
