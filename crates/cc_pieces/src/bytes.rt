//! The bytes of pieces.

ghost use Rattle.std.specs.Prelude.{◌≡◌, ◌++◌, IfOk, OnOk};
ghost use Rattle.std.specs.Fmt.{decimal};
ghost use Rattle.cc_pieces.specs.Pieces.{flat};
ghost use Rattle.cc_pieces.specs.View.{ended, left, number_in as number_in_of, pieces_of};

use crate::piece::Symbol;
use crate::spellings::{suffix_text, word_text};
use cc_lex::spelling;
use cc_program::num::NoMemory;
use std::alloc::Global;

fn spell_number(alloc: Global, out: &mut Vec<u8>, number: u128) -> Result<(), NoMemory>
    ensures { OnOk result (out.new.items ≡ out.old.items ++ decimal number) }
{
    let text = format!(in alloc; "{number}")?;
    out.extend_from_slice(text.as_bytes())?;
    Ok(())
}

/// The number that bytes write to the base 256. One of more than 128 bits is no piece's; it is answered as want of memory.
#[tactic(auto, using(crate::proofs::PieceLemmas::of_numbers))]
fn number_in(bytes: &[u8]) -> Result<u128, NoMemory>
    ensures { IfOk result (λ n. n ≡ number_in_of bytes.now) }
{
    let mut number: u128 = 0;
    for byte in bytes {
        let shifted = number.checked_mul(256).ok_or(NoMemory)?;
        number = shifted.checked_add(u128::from(*byte)).ok_or(NoMemory)?;
    }
    Ok(number)
}

/// The bytes of the piece that a symbol ends, behind those of its name, its number or its gap.
fn spell_ended(
    alloc: Global,
    out: &mut Vec<u8>,
    bytes: &[u8],
    symbol: Symbol,
) -> Result<(), NoMemory>
    ensures { OnOk result (out.new.items ≡ out.old.items ++ flat (ended symbol bytes.now)) }
{
    match symbol {
        Symbol::Name | Symbol::Gap => out.extend_from_slice(bytes)?,
        Symbol::Keyword(word) => out.extend_from_slice(word_text(word))?,
        Symbol::Number(suffix) => {
            spell_number(alloc, out, number_in(bytes)?)?;
            out.extend_from_slice(suffix_text(suffix))?;
        }
        Symbol::Punct(mark) => out.extend_from_slice(spelling(mark).as_bytes())?,
        Symbol::Space => out.extend_from_slice(b" ")?,
        Symbol::LineEnd => out.extend_from_slice(b"\n")?,
        Symbol::Byte(_) => {}
    }
    Ok(())
}

/// The bytes that stand in front of the next piece's symbol.
fn keep_byte(bytes: &mut Vec<u8>, symbol: Symbol) -> Result<(), NoMemory>
    ensures { OnOk result (bytes.new.items ≡ left symbol bytes.old.items) }
{
    match symbol {
        Symbol::Byte(byte) => bytes.push(byte)?,
        Symbol::Name
        | Symbol::Keyword(_)
        | Symbol::Number(_)
        | Symbol::Punct(_)
        | Symbol::Space
        | Symbol::LineEnd
        | Symbol::Gap => bytes.clear(),
    }
    Ok(())
}

/// The bytes of a text, of which the last piece comes first.
pub fn spell(alloc: Global, last_first: &[Symbol]) -> Result<Vec<u8>, NoMemory>
    ensures { IfOk result (λ text. text.items ≡ flat (pieces_of last_first.now)) }
{
    let mut out = Vec::new(alloc);
    let mut bytes = Vec::new(alloc);
    let mut left = last_first.len();
    while left > 0 {
        left -= 1;
        spell_ended(alloc, &mut out, &bytes, last_first[left])?;
        keep_byte(&mut bytes, last_first[left])?;
    }
    Ok(out)
}
