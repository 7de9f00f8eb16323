//! A text is made from its end: each piece is put in front of those that follow it, as the definitions have it.

ghost use Rattle.std.specs.Prelude.{◌≡◌, ◌∷◌, ◌++◌, map, OnOk};
ghost use Rattle.cc_pieces.specs.Declarators.{two_words as two_words_of};
ghost use Rattle.cc_lex.specs.declared.token.Kind.TheVariants.{Number};
ghost use Rattle.cc_pieces.specs.Pieces.{Token, punct, keyword, ident, number as number_of, space, indent, opening, closing};
ghost use Rattle.cc_pieces.specs.View.{piece_of, pieces_of, put_in_front};

use crate::piece::{Piece, Symbol};
use cc_lex::{Mark, Suffix};
use cc_program::num::NoMemory;
use cc_program::words::Word;

/// Puts the symbols of bytes in front, from the last byte on.
fn put_bytes(out: &mut Vec<Symbol>, bytes: &[u8]) -> Result<(), NoMemory>
    ensures { OnOk result (out.new.items ≡ out.old.items ++ put_in_front bytes.now) }
{
    let mut left = bytes.len();
    while left > 0 {
        left -= 1;
        out.push(Symbol::Byte(bytes[left]))?;
    }
    Ok(())
}

#[tactic(auto, using(crate::proofs::PieceLemmas::of_pieces, std::proofs::lemmas::Grind::common_steps))]
fn put_name(out: &mut Vec<Symbol>, name: &[u8]) -> Result<(), NoMemory>
    ensures { OnOk result (pieces_of out.new.items ≡ ident name.now ∷ pieces_of out.old.items) }
{
    out.push(Symbol::Name)?;
    put_bytes(out, name)
}

/// Puts a number in front, by its bytes to the base 256 from the last one on.
fn put_number(out: &mut Vec<Symbol>, number: u128, suffix: Suffix) -> Result<(), NoMemory>
    ensures { OnOk result (pieces_of out.new.items ≡ Token (Number number suffix) ∷ pieces_of out.old.items) }
{
    out.push(Symbol::Number(suffix))?;
    let mut left = number;
    while left > 0 {
        out.push(Symbol::Byte((left % 256) as u8))?;
        left /= 256;
    }
    Ok(())
}

#[tactic(auto, using(crate::proofs::PieceLemmas::of_indents))]
fn put_indent(out: &mut Vec<Symbol>, level: usize) -> Result<(), NoMemory>
    ensures { OnOk result (pieces_of out.new.items ≡ indent level ∷ pieces_of out.old.items) }
{
    out.push(Symbol::Gap)?;
    for _ in 0..level {
        put_bytes(out, b"  ")?;
    }
    Ok(())
}

/// Puts a piece in front.
#[tactic(auto, using(crate::proofs::PieceLemmas::of_pieces))]
pub fn put(out: &mut Vec<Symbol>, piece: Piece) -> Result<(), NoMemory>
    ensures { OnOk result (pieces_of out.new.items ≡ piece_of piece.entry ∷ pieces_of out.old.items) }
{
    match piece {
        Piece::Name(name) => put_name(out, name)?,
        Piece::Keyword(word) => out.push(Symbol::Keyword(word))?,
        Piece::Number(number, suffix) => put_number(out, number, suffix)?,
        Piece::Punct(mark) => out.push(Symbol::Punct(mark))?,
        Piece::Space => out.push(Symbol::Space)?,
        Piece::LineEnd => out.push(Symbol::LineEnd)?,
        Piece::Indent(level) => put_indent(out, level)?,
    }
    Ok(())
}

/// Puts pieces in front, which are given in the order of the text.
pub fn put_all(out: &mut Vec<Symbol>, pieces: &[Piece]) -> Result<(), NoMemory>
    ensures { OnOk result (pieces_of out.new.items ≡ map piece_of pieces.now ++ pieces_of out.old.items) }
{
    let mut left = pieces.len();
    while left > 0 {
        left -= 1;
        put(out, pieces[left])?;
    }
    Ok(())
}

/// Puts a mark in front.
pub fn mark(out: &mut Vec<Symbol>, mark: Mark) -> Result<(), NoMemory>
    ensures { OnOk result (pieces_of out.new.items ≡ punct mark ∷ pieces_of out.old.items) }
{
    put(out, Piece::Punct(mark))
}

/// Puts a mark between two spaces in front.
pub fn spaced_mark(out: &mut Vec<Symbol>, mark: Mark) -> Result<(), NoMemory>
    ensures { OnOk result (pieces_of out.new.items ≡ space ∷ punct mark ∷ space ∷ pieces_of out.old.items) }
{
    put_all(out, &[Piece::Space, Piece::Punct(mark), Piece::Space])
}

/// Puts a keyword in front.
pub fn word(out: &mut Vec<Symbol>, word: Word) -> Result<(), NoMemory>
    ensures { OnOk result (pieces_of out.new.items ≡ keyword word ∷ pieces_of out.old.items) }
{
    put(out, Piece::Keyword(word))
}

/// Puts two keywords in front, with a space between them.
pub fn two_words(out: &mut Vec<Symbol>, first: Word, second: Word) -> Result<(), NoMemory>
    ensures { OnOk result (pieces_of out.new.items ≡ two_words_of first second (pieces_of out.old.items)) }
{
    put_all(
        out,
        &[Piece::Keyword(first), Piece::Space, Piece::Keyword(second)],
    )
}

/// Puts an identifier in front.
pub fn name(out: &mut Vec<Symbol>, name: &[u8]) -> Result<(), NoMemory>
    ensures { OnOk result (pieces_of out.new.items ≡ ident name.now ∷ pieces_of out.old.items) }
{
    put(out, Piece::Name(name))
}

/// A number, with the letters of its suffix: whether it has `u`, and how often `l`.
pub fn number_piece<'p>(number: u128, unsigned: bool, longs: u8) -> Piece<'p>
    ensures { piece_of result ≡ number_of number unsigned longs }
{
    let suffix = Suffix {
        decimal: number != 0,
        unsigned,
        longs,
    };
    Piece::Number(number, suffix)
}

/// Puts a number in front, with the letters of its suffix: whether it has `u`, and how often `l`.
pub fn number(
    out: &mut Vec<Symbol>,
    number: u128,
    unsigned: bool,
    longs: u8,
) -> Result<(), NoMemory>
    ensures { OnOk result (pieces_of out.new.items ≡ number_of number unsigned longs ∷ pieces_of out.old.items) }
{
    put(out, number_piece(number, unsigned, longs))
}

/// Puts an opening parenthesis in front, where there is one.
pub fn open(out: &mut Vec<Symbol>, is_there: bool) -> Result<(), NoMemory>
    ensures { OnOk result (pieces_of out.new.items ≡ opening is_there (pieces_of out.old.items)) }
{
    if is_there {
        put(out, Piece::Punct(Mark::LParen))?;
    }
    Ok(())
}

/// Puts a closing parenthesis in front, where there is one.
pub fn close(out: &mut Vec<Symbol>, is_there: bool) -> Result<(), NoMemory>
    ensures { OnOk result (pieces_of out.new.items ≡ closing is_there (pieces_of out.old.items)) }
{
    if is_there {
        put(out, Piece::Punct(Mark::RParen))?;
    }
    Ok(())
}
