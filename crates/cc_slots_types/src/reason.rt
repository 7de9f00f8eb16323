//! Why a slot is not coded.

ghost use Rattle.std.specs.Prelude.{◌≡◌};
ghost use Rattle.cc_slots_types.specs.Slots.{reason_number};

/// Why a slot is not coded: the first of these that holds.
#[derive(Clone, Copy)]
pub enum Reason {
    /// The object, the member or an access to it is volatile.
    Volatile,
    /// The object or the member is const, or every object of the structure is.
    Const,
    /// Its address is taken, or an array is used other than by a subscript or `sizeof`.
    Addressed,
    /// Its structure has an automatic object.
    Automatic,
    /// Its scalar is wider than an access that no interrupt divides, its class is not `Lone`, and an access
    /// stands where the flag may be on.
    Torn,
    /// An access to the array is not known to be in bounds.
    Index,
    /// Its code is not shorter.
    Wide,
}

impl Reason {
    /// The position of the reason, from 1.
    pub fn number(self) -> u64
        ensures { result ≡ reason_number self }
    {
        match self {
            Reason::Volatile => 1,
            Reason::Const => 2,
            Reason::Addressed => 3,
            Reason::Automatic => 4,
            Reason::Torn => 5,
            Reason::Index => 6,
            Reason::Wide => 7,
        }
    }
}
