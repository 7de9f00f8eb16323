//! How a value of an integer type is written (C99 6.4.4.1).

ghost use Rattle.std.specs.Prelude.{◌≡◌, OnOk};
ghost use Rattle.cc_pieces.specs.Constants.{has_unsigned_letter as has_unsigned_letter_of, long_letters_of, of_type as of_type_of, is_narrow as is_narrow_of, negative, least, constant};
ghost use Rattle.cc_pieces.specs.View.{piece_of, pieces_of};

use crate::piece::{Piece, Symbol};
use crate::puts::{number_piece, put, put_all};
use cc_lex::Mark;
use cc_program::num::{IntType, NoMemory, Target};

fn has_unsigned_letter(t: IntType) -> bool
    ensures { result ≡ has_unsigned_letter_of t }
{
    match t {
        IntType::UInt | IntType::ULong | IntType::ULongLong => true,
        IntType::Bool
        | IntType::Char
        | IntType::SChar
        | IntType::UChar
        | IntType::Short
        | IntType::UShort
        | IntType::Int
        | IntType::Long
        | IntType::LongLong => false,
    }
}

fn long_letters(t: IntType) -> u8
    ensures { result ≡ long_letters_of t }
{
    match t {
        IntType::Long | IntType::ULong => 1,
        IntType::LongLong | IntType::ULongLong => 2,
        IntType::Bool
        | IntType::Char
        | IntType::SChar
        | IntType::UChar
        | IntType::Short
        | IntType::UShort
        | IntType::Int
        | IntType::UInt => 0,
    }
}

/// Whether a type has a lower rank than `int`, and so no constants of its own.
pub fn is_narrow(t: IntType) -> bool
    ensures { result ≡ is_narrow_of t }
{
    match t {
        IntType::Bool
        | IntType::Char
        | IntType::SChar
        | IntType::UChar
        | IntType::Short
        | IntType::UShort => true,
        IntType::Int
        | IntType::UInt
        | IntType::Long
        | IntType::ULong
        | IntType::LongLong
        | IntType::ULongLong => false,
    }
}

fn of_type<'p>(t: IntType, n: u128) -> Piece<'p>
    ensures { piece_of result ≡ of_type_of t n }
{
    number_piece(n, has_unsigned_letter(t), long_letters(t))
}

fn put_negative(out: &mut Vec<Symbol>, t: IntType, n: u128) -> Result<(), NoMemory>
    ensures { OnOk result (pieces_of out.new.items ≡ negative t n (pieces_of out.old.items)) }
{
    put_all(
        out,
        &[
            Piece::Punct(Mark::LParen),
            Piece::Punct(Mark::Minus),
            of_type(t, n),
            Piece::Punct(Mark::RParen),
        ],
    )
}

fn put_least(out: &mut Vec<Symbol>, t: IntType, n: u128) -> Result<(), NoMemory>
    ensures { OnOk result (pieces_of out.new.items ≡ least t n (pieces_of out.old.items)) }
{
    put_all(
        out,
        &[
            Piece::Punct(Mark::LParen),
            Piece::Punct(Mark::Minus),
            of_type(t, n),
            Piece::Space,
            Piece::Punct(Mark::Minus),
            Piece::Space,
            number_piece(1, false, 0),
            Piece::Punct(Mark::RParen),
        ],
    )
}

/// Puts a value of a type in front.
#[tactic(auto, unfolding(crate::specs::Constants::constant))]
pub fn put_constant(
    out: &mut Vec<Symbol>,
    target: &Target,
    n: i128,
    t: IntType,
) -> Result<(), NoMemory>
    ensures { OnOk result (pieces_of out.new.items ≡ constant target.now n t (pieces_of out.old.items)) }
{
    let size = n.unsigned_abs();
    if n < 0 {
        if n == t.least(target) {
            put_least(out, t, size.saturating_sub(1))
        } else {
            put_negative(out, t, size)
        }
    } else {
        put(out, of_type(t, size))
    }
}
