ghost use Rattle.std.specs.Prelude.{◌≤◌, ◌<◌, ◌^◌};
ghost use Rattle.cc_explicit.specs.Sets.{most_members};
ghost use Rattle.cc_sets.specs.Ranges.{most_bits};

use std::alloc::Global;

/// All numbers of some bits: from 0 to 2^bits - 1, or with a sign in two's complement, from
/// -2^(bits-1) to 2^(bits-1) - 1. There are more of them than an explicit set may have members. The
/// allocator is kept for explicit sets that are made of the range.
#[derive(Clone, Copy)]
pub struct Range {
    pub signed: bool,
    pub bits: u32,
    pub alloc: Global,
    pub ghost many: { most_members < 2 ^ bits },
    pub ghost few: { bits ≤ most_bits signed },
}

impl Range {
    ghost use Rattle.std.specs.Prelude.{◌≡◌, ◌↔◌, ◌≤ℤ◌, IsTrue};
    ghost use Rattle.cc_sets.specs.Rungs.{low_of, high_of};

    /// The least number.
    pub fn low(&self) -> i128
        ensures { result ≡ low_of self.now }
    {
        if self.signed {
            -(1i128 << (self.bits - 1))
        } else {
            0
        }
    }

    /// The greatest number.
    pub fn high(&self) -> i128
        ensures { result ≡ high_of self.now }
    {
        if self.signed {
            (1i128 << (self.bits - 1)) - 1
        } else {
            (1i128 << self.bits) - 1
        }
    }

    /// Whether the range has two numbers, and so all between them.
    pub(crate) fn reaches(&self, low: i128, high: i128) -> bool
        ensures { IsTrue result ↔ ((low_of self.now ≤ℤ low) × (high ≤ℤ high_of self.now)) }
    {
        self.low() <= low && high <= self.high()
    }
}
