//! Words that take slots.

ghost use Rattle.std.specs.Prelude.{◌≡◌, ◌≤◌, ◌+◌, IfOk, OnOk};
ghost use Rattle.cc_bins.specs.Placing.{has_room as has_room_of, opened, with_slot, saves as saves_of, word_bits as word_bits_of};

use crate::types::Want;
use cc_num::{List, NoMemory};
use std::alloc::Global;
use std::mem;

/// The bits of a word of one byte.
const SMALL: u8 = 8;

/// The bits of a word of two bytes.
const LARGE: u8 = 16;

/// A slot in a word, from the bit `shift` up.
#[derive(Clone, Copy)]
pub struct Placed {
    pub want: Want,
    pub shift: u8,
}

/// A word that takes slots, from its lowest bit up: its bits from `used` on are free.
#[derive(Drop)]
pub struct Open {
    pub group: u64,
    pub bits: u8,
    pub used: u8,
    pub slots: List<Placed>,
}

/// How many bits a word has that is opened for a slot of so many.
fn word_bits(bits: u8) -> u8
    ensures { result ≡ word_bits_of bits }
{
    if bits <= SMALL { SMALL } else { LARGE }
}

impl Open {
    /// A word with one slot.
    pub fn new(alloc: Global, want: &Want) -> Result<Open, NoMemory>
        ensures { IfOk result (λ word. word ≡ opened want.now) }
    {
        let mut slots = Vec::new(alloc);
        slots.push(Placed {
            want: *want,
            shift: 0,
        })?;
        Ok(Open {
            group: want.group,
            bits: word_bits(want.bits),
            used: want.bits,
            slots: List::of(slots),
        })
    }

    /// Whether a slot of this group and of so many bits has room.
    pub fn has_room(&self, group: u64, bits: u8) -> bool
        ensures { result ≡ has_room_of group bits self.now }
    {
        self.group == group && u16::from(self.used) + u16::from(bits) <= u16::from(self.bits)
    }

    /// Puts a slot at the lowest free bits.
    pub fn add(&mut self, alloc: Global, want: &Want) -> Result<(), NoMemory>
        requires room { self.old.used + want.now.bits ≤ self.old.bits }
        ensures { OnOk result (self.new ≡ with_slot self.old want.now) }
    {
        let _bits = self.bits;
        let shift = self.used;
        let nothing = List::of(Vec::new(alloc));
        let mut slots = mem::replace(&mut self.slots, nothing).into_vec();
        slots.push(Placed { want: *want, shift })?;
        self.slots = List::of(slots);
        self.used = shift + want.bits;
        Ok(())
    }

    /// Whether it has fewer bytes than its slots together.
    pub fn saves(&self) -> bool
        ensures { result ≡ saves_of self.now }
    {
        let mut bytes: u128 = 0;
        for placed in self.slots.all() {
            bytes += u128::from(placed.want.bytes);
        }
        u128::from(self.bits / 8) < bytes
    }
}
