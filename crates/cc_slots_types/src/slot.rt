//! What is known of a slot.

ghost use Rattle.std.specs.Prelude.{◌≡◌};
ghost use Rattle.cc_slots_types.specs.Slots.{group_of, least_bits_of};

use crate::class::Class;
use crate::reason::Reason;
use cc_places::Abs;
use cc_program::num::{List, Name};
use cc_sets::Vals;
use cc_state_facts::Key;

/// A static scalar, a static array of scalars, or a scalar member of a structure.
#[derive(Drop)]
pub struct Slot {
    /// That of the object; of a member that of the structure, a dot and its own.
    pub name: Name,
    /// The object or the member.
    pub key: Key,
    pub class: Class,
    /// What its scalars may have in any run.
    pub values: Abs<Vals>,
    /// How many scalars it has in RAM.
    pub count: u32,
    /// The size of one of them.
    pub bytes: u32,
    /// How many bits a code of its values has; where they have no coding, the bits of one of its scalars.
    pub bits: u32,
    /// The points that are reached and read it.
    pub reads: List<u32>,
    /// The points that are reached and write it.
    pub writes: List<u32>,
    /// None where it may be coded.
    pub reason: Option<Reason>,
}

impl Slot {
    /// The number of its group: slots of different groups never share a word.
    pub fn group(&self) -> u64
        ensures { result ≡ group_of self.now.key self.now.class }
    {
        match self.key {
            Key::Member(structure, _) => 3 * (u64::from(structure) + 1) + self.class.number(),
            _ => self.class.number(),
        }
    }

    /// The fewest bits that its code may have.
    pub fn least_bits(&self) -> u32
        ensures { result ≡ least_bits_of self.now.key }
    {
        match self.key {
            Key::Member(_, _) => 1,
            _ => 0,
        }
    }
}
