//! The numbers by which a pointer is moved.

ghost use Rattle.cc_state_operators.specs.Results.{offsets};

use cc_lattice::{Concrete, IntDomain};

/// The members of a set, each negated where a pointer is moved back.
#[derive(Drop)]
pub(crate) struct Offsets<'a, I> {
    pub back: bool,
    pub by: &'a I,
}

impl<I: IntDomain> Concrete for Offsets<'_, I> {
    ghost Has = { λ s. offsets s.back (I.Has s.by.now) };

    fn has(&self, v: i128) -> bool {
        if !self.back {
            return self.by.has(v);
        }
        if v == i128::MIN {
            return false;
        }
        self.by.has(-v)
    }
}
