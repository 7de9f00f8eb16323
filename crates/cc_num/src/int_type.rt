use crate::Target;

/// An integer type of C (C99 6.2.5).
#[derive(Clone, Copy, Debug, PartialEq, Eq)]
pub enum IntType {
    Bool,
    Char,
    SChar,
    UChar,
    Short,
    UShort,
    Int,
    UInt,
    Long,
    ULong,
    LongLong,
    ULongLong,
}

impl IntType {
    ghost use Rattle.std.specs.Prelude.{◌≡◌, ◌≤◌, ◌^◌, pos, neg_ℤ, ◌≤ℤ◌, ◌<ℤ◌};
    ghost use Rattle.cc_num.specs.Integers.{bytes_of, bits_of, is_signed, least_of, most_of, is_value_of};

    /// How many bytes a value takes.
    pub fn bytes(self, target: &Target) -> u8
        ensures value { result ≡ bytes_of self target.now }
        ensures some { 1 ≤ result }
        ensures most { result ≤ 8 }
    {
        match self {
            IntType::Bool | IntType::Char | IntType::SChar | IntType::UChar => 1,
            IntType::Short | IntType::UShort => 2,
            IntType::Int | IntType::UInt => target.int_bytes,
            IntType::Long | IntType::ULong => 4,
            IntType::LongLong | IntType::ULongLong => 8,
        }
    }

    /// How many bits a value has: w in the rules of C99.
    pub fn bits(self, target: &Target) -> u32
        ensures value { result ≡ bits_of self target.now }
        ensures some { 8 ≤ result }
        ensures most { result ≤ 64 }
    {
        8 * u32::from(self.bytes(target))
    }

    /// Whether the type has negative values.
    pub fn is_signed(self, target: &Target) -> bool
        ensures { result ≡ is_signed self target.now }
    {
        match self {
            IntType::Char => target.char_signed,
            IntType::SChar | IntType::Short | IntType::Int | IntType::Long | IntType::LongLong =>
                true,
            IntType::Bool
            | IntType::UChar
            | IntType::UShort
            | IntType::UInt
            | IntType::ULong
            | IntType::ULongLong => false,
        }
    }

    /// The least value (C99 5.2.4.2.1, 6.2.6.2), in two's complement.
    pub fn least(self, target: &Target) -> i128
        ensures value { result ≡ least_of self target.now }
        ensures low { neg_ℤ (pos (2 ^ 63)) ≤ℤ result }
        ensures high { result ≤ℤ pos 0 }
    {
        if self.is_signed(target) {
            -(1i128 << (self.bits(target) - 1))
        } else {
            0
        }
    }

    /// The greatest value (C99 5.2.4.2.1, 6.2.6.2).
    pub fn most(self, target: &Target) -> i128
        ensures value { result ≡ most_of self target.now }
        ensures low { pos 1 ≤ℤ result }
        ensures high { result <ℤ pos (2 ^ 64) }
    {
        match self {
            IntType::Bool => 1,
            _ if self.is_signed(target) => (1i128 << (self.bits(target) - 1)) - 1,
            _ => (1i128 << self.bits(target)) - 1,
        }
    }

    /// Whether a number is a value of the type.
    pub fn contains(self, v: i128, target: &Target) -> bool
        ensures { result ≡ is_value_of self target.now v }
    {
        self.least(target) <= v && v <= self.most(target)
    }
}
