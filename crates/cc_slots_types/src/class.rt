//! Who accesses a slot.

ghost use Rattle.std.specs.Prelude.{◌≡◌};
ghost use Rattle.cc_slots_types.specs.Slots.{class_number};

/// What the functions that are reached from a handler do with a slot.
#[derive(Clone, Copy)]
pub enum Class {
    /// None accesses it.
    Lone,
    /// One reads it, and none writes it.
    Read,
    /// One may write it.
    Written,
}

impl Class {
    /// The position of the class.
    pub fn number(self) -> u64
        ensures { result ≡ class_number self }
    {
        match self {
            Class::Lone => 0,
            Class::Read => 1,
            Class::Written => 2,
        }
    }
}
