//! Expressions without operands: constants, nulls and devices.

ghost use Rattle.std.specs.Prelude.{◌≡◌, ◌∷◌, OnOk, slice_get};
ghost use Rattle.std.specs.Option.{option_copied};
ghost use Rattle.cc_pieces.specs.View.{pieces_of};
ghost use Rattle.cc_bodies.specs.Exprs.{unary_mark as unary_mark_of, binary_mark as binary_mark_of, movement_mark as movement_mark_of, narrow, constant_text, null_cast, void_null, taken_null, null_text, numbered_device, device_by, device_text};
ghost use Rattle.cc_bodies.specs.View.{spot_of};

use crate::names::put_named;
use crate::spots::{Spot, converts_constant, wraps_conversion};
use cc_lex::Mark;
use cc_pieces::{
    Piece, Symbol, close, is_narrow, mark, number, open, put, put_cast, put_constant, put_int_cast,
    put_int_name, put_qualifiers, word,
};
use cc_program::num::{BinOp, IntType, Name, NoMemory, Target, UnOp, at};
use cc_program::words::Word;
use cc_program::{CType, Device, Structure};
use cc_typed::alike;

/// The mark of an operator of one operand (C99 6.5.3.3).
pub fn unary_mark(op: UnOp) -> Mark
    ensures { result ≡ unary_mark_of op }
{
    match op {
        UnOp::Neg => Mark::Minus,
        UnOp::Not => Mark::Tilde,
        UnOp::Lnot => Mark::Bang,
    }
}

/// The mark of an operator of two operands (C99 6.5.5 to 6.5.12).
pub fn binary_mark(op: BinOp) -> Mark
    ensures { result ≡ binary_mark_of op }
{
    match op {
        BinOp::Add => Mark::Plus,
        BinOp::Sub => Mark::Minus,
        BinOp::Mul => Mark::Star,
        BinOp::Div => Mark::Slash,
        BinOp::Rem => Mark::Percent,
        BinOp::And => Mark::Amp,
        BinOp::Or => Mark::Bar,
        BinOp::Xor => Mark::Caret,
        BinOp::Shl => Mark::Shl,
        BinOp::Shr => Mark::Shr,
        BinOp::Lt => Mark::Lt,
        BinOp::Le => Mark::Le,
        BinOp::Gt => Mark::Gt,
        BinOp::Ge => Mark::Ge,
        BinOp::Eq => Mark::EqEq,
        BinOp::Ne => Mark::NotEq,
    }
}

/// The mark by which a pointer is moved, back where the flag is set (C99 6.5.6).
pub fn movement_mark(back: bool) -> Mark
    ensures { result ≡ movement_mark_of back }
{
    if back { Mark::Minus } else { Mark::Plus }
}

fn put_narrow(
    out: &mut Vec<Symbol>,
    converts: bool,
    target: &Target,
    n: i128,
    t: IntType,
    spot: Spot,
) -> Result<(), NoMemory>
    ensures { OnOk result (pieces_of out.new.items ≡ narrow converts target.now n t (spot_of spot.entry) (pieces_of out.old.items)) }
{
    if converts {
        close(out, wraps_conversion(spot))?;
        put_constant(out, target, n, t)?;
        put_int_cast(out, t)?;
        open(out, wraps_conversion(spot))
    } else {
        put_constant(out, target, n, t)
    }
}

/// Puts a constant in front.
pub fn put_constant_text(
    out: &mut Vec<Symbol>,
    target: &Target,
    n: i128,
    t: IntType,
    spot: Spot,
) -> Result<(), NoMemory>
    ensures { OnOk result (pieces_of out.new.items ≡ constant_text target.now n t (spot_of spot.entry) (pieces_of out.old.items)) }
{
    if is_narrow(t) {
        put_narrow(out, converts_constant(spot), target, n, t, spot)
    } else {
        put_constant(out, target, n, t)
    }
}

fn put_null_cast<'p>(
    out: &mut Vec<Symbol>,
    structures: &'p [Structure],
    t: &'p CType,
) -> Result<(), NoMemory>
    ensures { OnOk result (pieces_of out.new.items ≡ null_cast structures.now t.now (pieces_of out.old.items)) }
{
    number(out, 0, false, 0)?;
    put_cast(out, structures, t)
}

fn put_void_null(out: &mut Vec<Symbol>) -> Result<(), NoMemory>
    ensures { OnOk result (pieces_of out.new.items ≡ void_null (pieces_of out.old.items)) }
{
    mark(out, Mark::RParen)?;
    number(out, 0, false, 0)?;
    mark(out, Mark::RParen)?;
    mark(out, Mark::Star)?;
    put(out, Piece::Space)?;
    word(out, Word::Void)?;
    mark(out, Mark::LParen)?;
    mark(out, Mark::LParen)
}

fn put_taken_null<'p>(
    out: &mut Vec<Symbol>,
    structures: &'p [Structure],
    t: &'p CType,
    to: Option<&'p CType>,
) -> Result<(), NoMemory>
    ensures { OnOk result (pieces_of out.new.items ≡ taken_null structures.now t.now (option_copied to.entry) (pieces_of out.old.items)) }
{
    match to {
        None => put_null_cast(out, structures, t),
        Some(to) => {
            if alike(t, to) {
                number(out, 0, false, 0)
            } else {
                put_null_cast(out, structures, t)
            }
        }
    }
}

/// Puts a null of a pointer type in front.
pub fn put_null<'p>(
    out: &mut Vec<Symbol>,
    structures: &'p [Structure],
    t: &'p CType,
    spot: Spot<'p>,
) -> Result<(), NoMemory>
    ensures { OnOk result (pieces_of out.new.items ≡ null_text structures.now t.now (spot_of spot.entry) (pieces_of out.old.items)) }
{
    match spot {
        Spot::Whole(to) => put_taken_null(out, structures, t, to),
        Spot::Operand => put_null_cast(out, structures, t),
        Spot::Converted => {
            mark(out, Mark::RParen)?;
            put_null_cast(out, structures, t)?;
            mark(out, Mark::LParen)
        }
        Spot::Pointed => {
            put_void_null(out)?;
            put_cast(out, structures, t)
        }
    }
}

fn put_numbered_device(out: &mut Vec<Symbol>, device: &Device) -> Result<(), NoMemory>
    ensures { OnOk result (pieces_of out.new.items ≡ numbered_device device.now (pieces_of out.old.items)) }
{
    mark(out, Mark::RParen)?;
    number(out, u128::from(device.number), false, 0)?;
    mark(out, Mark::RParen)?;
    mark(out, Mark::Star)?;
    put(out, Piece::Space)?;
    put_int_name(out, device.int)?;
    put_qualifiers(out, device.constant, true)?;
    mark(out, Mark::LParen)?;
    mark(out, Mark::Star)?;
    mark(out, Mark::LParen)
}

fn put_device_by<'p>(
    out: &mut Vec<Symbol>,
    device: &'p Device,
    found: Option<&'p Name>,
) -> Result<(), NoMemory>
    ensures { OnOk result (pieces_of out.new.items ≡ device_by device.now (option_copied found.entry) (pieces_of out.old.items)) }
{
    match found {
        None => put_numbered_device(out, device),
        Some(x) => put_named(out, Some(x)),
    }
}

/// Puts a device in front: its name, or what is at its number.
pub fn put_device<'p>(
    out: &mut Vec<Symbol>,
    devices: &'p [Device],
    device: u32,
) -> Result<(), NoMemory>
    ensures { OnOk result (pieces_of out.new.items ≡ device_text (slice_get devices.now device) (pieces_of out.old.items)) }
{
    match at(devices, device as usize) {
        None => Ok(()),
        Some(d) => put_device_by(out, d, d.name.as_ref()),
    }
}
