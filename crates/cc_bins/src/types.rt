//! What is placed, and the words and fields that it is placed in.

use cc_num::List;

/// A slot that is to stand in a word.
#[derive(Clone, Copy)]
pub struct Want {
    /// Slots of different groups never share a word.
    pub group: u64,
    pub slot: u32,
    /// How many bits its code has: 1 to 16.
    pub bits: u8,
    /// How many bytes of RAM it takes where it stands in no word.
    pub bytes: u32,
}

/// A word of RAM.
#[derive(Clone, Copy)]
pub struct Word {
    /// The group of the slots that share it.
    pub group: u64,
    /// How many bits it has: 8 or 16.
    pub bits: u8,
}

/// Where a slot stands: in the word of this number, from the bit `shift` up.
#[derive(Clone, Copy)]
pub struct Field {
    pub slot: u32,
    pub word: u32,
    pub shift: u8,
}

/// The words that are kept, by group and in each in the order of opening, and the fields in them, word
/// by word and in each from its lowest bit up.
#[derive(Drop)]
pub struct Bins {
    pub words: List<Word>,
    pub fields: List<Field>,
}
