//! Types word by word.

ghost use Rattle.std.specs.Prelude.{◌≡◌, ◌++◌, [], ◌∷◌, OnOk};
ghost use Rattle.cc_structures.specs.Words.{word, type_words, shape_words, sig_words, type_parts, shape_parts, sig_parts};

use cc_program::num::NoMemory;
use cc_program::{CType, Shape, Sig};
use cc_things::position_of;

/// What a type is (C99 6.2.5).
#[derive(Clone, Copy, PartialEq, Eq, Hash)]
pub enum Kind {
    Void,
    Int,
    Pointer,
    Array,
    Struct,
    Func,
}

/// One part of a type, those aside that it is derived from.
#[derive(Clone, Copy, PartialEq, Eq, Hash)]
pub struct Word {
    pub constant: bool,
    pub volatile: bool,
    pub kind: Kind,
    /// Which integer type, or how many elements or parameters.
    pub number: u64,
}

/// Puts the words of a type behind others, and so its structures.
#[cycle(words)]
pub fn put_type(t: &CType, words: &mut Vec<Word>, parts: &mut Vec<u32>) -> Result<(), NoMemory>
    ensures words { OnOk result (words.new.items ≡ words.old.items ++ type_words t.now) }
    ensures parts { OnOk result (parts.new.items ≡ parts.old.items ++ type_parts t.now) }
{
    put_shape(&t.shape, t.constant, t.volatile, words, parts)
}

#[cycle(words)]
fn put_shape(
    s: &Shape,
    constant: bool,
    volatile: bool,
    words: &mut Vec<Word>,
    parts: &mut Vec<u32>,
) -> Result<(), NoMemory>
    ensures words { OnOk result (words.new.items ≡ words.old.items ++ shape_words s.now constant volatile) }
    ensures parts { OnOk result (parts.new.items ≡ parts.old.items ++ shape_parts s.now) }
{
    match s {
        Shape::Void => put_word(constant, volatile, Kind::Void, 0, words),
        Shape::Int(t) => put_word(
            constant,
            volatile,
            Kind::Int,
            u64::from(position_of(*t)),
            words,
        ),
        Shape::Pointer(to) => {
            put_word(constant, volatile, Kind::Pointer, 0, words)?;
            put_type(to.get(), words, parts)
        }
        Shape::Array(of, n) => {
            put_word(constant, volatile, Kind::Array, u64::from(*n), words)?;
            put_type(of.get(), words, parts)
        }
        Shape::Struct(i) => {
            parts.push(*i)?;
            put_word(constant, volatile, Kind::Struct, 0, words)
        }
        Shape::Func(sig) => {
            let count = sig.get().params.all().len() as u64;
            put_word(constant, volatile, Kind::Func, count, words)?;
            put_sig(sig.get(), words, parts)
        }
    }
}

fn put_word(
    constant: bool,
    volatile: bool,
    kind: Kind,
    number: u64,
    words: &mut Vec<Word>,
) -> Result<(), NoMemory>
    ensures { OnOk result (words.new.items ≡ words.old.items ++ word constant volatile kind number ∷ []) }
{
    words.push(Word {
        constant,
        volatile,
        kind,
        number,
    })?;
    Ok(())
}

#[cycle(words)]
fn put_sig(sig: &Sig, words: &mut Vec<Word>, parts: &mut Vec<u32>) -> Result<(), NoMemory>
    ensures words { OnOk result (words.new.items ≡ words.old.items ++ (sig_words sig.now).words) }
    ensures parts { OnOk result (parts.new.items ≡ parts.old.items ++ sig_parts sig.now) }
{
    put_type(&sig.result, words, parts)?;
    for param in sig.params.all() {
        put_type(param, words, parts)?;
    }
    Ok(())
}
