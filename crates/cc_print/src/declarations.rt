//! Devices, prototypes, objects and functions (C99 6.7, 6.9.1).

ghost use Rattle.std.specs.Prelude.{◌≡◌, OnOk, take, drop};
ghost use Rattle.std.specs.Option.{option_copied};
ghost use Rattle.cc_pieces.specs.Declarators.{signature};
ghost use Rattle.cc_pieces.specs.View.{pieces_of};
ghost use Rattle.cc_print.specs.Units.{each, attribute, entry_attribute, function_head, prototype, further_parameters, named_parameters, object_line, device_named, device_line, function};
ghost use Rattle.cc_typed.specs.CcSyntax.Sizes.{AreSized};

use crate::structures::put_member_lines;
use cc_bodies::{Context, put_closed, put_ended, put_opened, put_stmts};
use cc_lex::Mark;
use cc_pieces::{
    Inside, Piece, Symbol, mark, name, put_all, put_behind, put_declaration, put_front,
    put_int_name, put_parameters, put_qualifiers, word,
};
use cc_program::num::{Name, NoMemory};
use cc_program::words::Word;
use cc_program::{CType, Device, Entry, Func, Object, Program, Structure};

fn put_device_named<'p>(
    out: &mut Vec<Symbol>,
    device: &'p Device,
    found: Option<&'p Name>,
) -> Result<(), NoMemory>
    ensures { OnOk result (pieces_of out.new.items ≡ device_named device.now (option_copied found.entry) (pieces_of out.old.items)) }
{
    match found {
        None => Ok(()),
        Some(x) => {
            put_ended(out)?;
            put_all(out, &[Piece::Space, Piece::Name(x.all())])?;
            put_int_name(out, device.int)?;
            put_qualifiers(out, device.constant, true)?;
            put_all(out, &[Piece::Keyword(Word::Extern), Piece::Space])
        }
    }
}

fn put_device_line<'p>(out: &mut Vec<Symbol>, device: &'p Device) -> Result<(), NoMemory>
    ensures { OnOk result (pieces_of out.new.items ≡ device_line device.now (pieces_of out.old.items)) }
{
    put_device_named(out, device, device.name.as_ref())
}

/// Puts the declarations of devices that have names in front.
pub fn put_device_lines<'p>(out: &mut Vec<Symbol>, devices: &'p [Device]) -> Result<(), NoMemory>
    ensures { OnOk result (pieces_of out.new.items ≡ each device_line devices.now (pieces_of out.old.items)) }
{
    let mut left = devices.len();
    while left > 0 {
        left -= 1;
        put_device_line(out, &devices[left])?;
    }
    Ok(())
}

fn put_attribute<'p>(out: &mut Vec<Symbol>, text: &'p [u8]) -> Result<(), NoMemory>
    ensures { OnOk result (pieces_of out.new.items ≡ attribute text.now (pieces_of out.old.items)) }
{
    put_all(
        out,
        &[
            Piece::Keyword(Word::Attribute),
            Piece::Punct(Mark::LParen),
            Piece::Punct(Mark::LParen),
            Piece::Name(text),
            Piece::Punct(Mark::RParen),
            Piece::Punct(Mark::RParen),
            Piece::Space,
        ],
    )
}

fn put_entry_attribute(out: &mut Vec<Symbol>, entry: Option<Entry>) -> Result<(), NoMemory>
    ensures { OnOk result (pieces_of out.new.items ≡ entry_attribute entry (pieces_of out.old.items)) }
{
    match entry {
        None => Ok(()),
        Some(Entry::Signal) => put_attribute(out, b"signal"),
        Some(Entry::Interrupt) => put_attribute(out, b"interrupt"),
        Some(Entry::Listed) => Ok(()),
    }
}

fn put_prototype<'p>(
    out: &mut Vec<Symbol>,
    structures: &'p [Structure],
    f: &'p Func,
) -> Result<(), NoMemory>
    ensures { OnOk result (pieces_of out.new.items ≡ prototype structures.now f.now (pieces_of out.old.items)) }
{
    put_ended(out)?;
    put_behind(out, structures, &f.sig.result, Inside::Name)?;
    mark(out, Mark::RParen)?;
    put_parameters(out, structures, &f.sig)?;
    mark(out, Mark::LParen)?;
    name(out, f.name.all())?;
    put_front(out, structures, &f.sig.result, Inside::Name)?;
    put_entry_attribute(out, f.entry)
}

/// Puts the prototypes of functions in front, a handler's with its attribute.
pub fn put_prototypes<'p>(
    out: &mut Vec<Symbol>,
    structures: &'p [Structure],
    funcs: &'p [Func],
) -> Result<(), NoMemory>
    ensures { OnOk result (pieces_of out.new.items ≡ each (prototype structures.now) funcs.now (pieces_of out.old.items)) }
{
    let mut left = funcs.len();
    while left > 0 {
        left -= 1;
        put_prototype(out, structures, &funcs[left])?;
    }
    Ok(())
}

/// Puts parameters with their names in front.
fn put_named_parameters<'p>(
    out: &mut Vec<Symbol>,
    structures: &'p [Structure],
    params: &'p [(Name, CType)],
) -> Result<(), NoMemory>
    ensures { OnOk result (pieces_of out.new.items ≡ named_parameters structures.now params.now (pieces_of out.old.items)) }
{
    if params.is_empty() {
        word(out, Word::Void)?;
        return Ok(());
    }
    let mut left = params.len();
    while left > 1 {
        left -= 1;
        put_declaration(out, structures, &params[left].1, params[left].0.all())?;
        put_all(out, &[Piece::Punct(Mark::Comma), Piece::Space])?;
    }
    put_declaration(out, structures, &params[0].1, params[0].0.all())?;
    Ok(())
}

fn put_object_line<'p>(
    out: &mut Vec<Symbol>,
    structures: &'p [Structure],
    o: &'p Object,
) -> Result<(), NoMemory>
    ensures { OnOk result (pieces_of out.new.items ≡ object_line structures.now o.now (pieces_of out.old.items)) }
{
    put_ended(out)?;
    put_declaration(out, structures, &o.ctype, o.name.all())?;
    put_all(out, &[Piece::Keyword(Word::Static), Piece::Space])
}

/// Puts the declarations of static objects in front, without their first values.
pub fn put_object_lines<'p>(
    out: &mut Vec<Symbol>,
    structures: &'p [Structure],
    objects: &'p [Object],
) -> Result<(), NoMemory>
    ensures { OnOk result (pieces_of out.new.items ≡ each (object_line structures.now) objects.now (pieces_of out.old.items)) }
{
    let mut left = objects.len();
    while left > 0 {
        left -= 1;
        put_object_line(out, structures, &objects[left])?;
    }
    Ok(())
}

/// The parameters of a function and its other locals.
fn split_locals(f: &Func) -> (&[(Name, CType)], &[(Name, CType)])
    ensures params { result.0.now ≡ take f.now.params f.now.locals }
    ensures others { result.1.now ≡ drop f.now.params f.now.locals }
{
    let all = f.locals.all();
    let count = f.params as usize;
    if count <= all.len() {
        all.split_at(count)
    } else {
        (all, &[])
    }
}

fn put_function<'p>(out: &mut Vec<Symbol>, p: &'p Program, f: &'p Func) -> Result<(), NoMemory>
    requires { AreSized p.now.structures p.now.target }
    ensures { OnOk result (pieces_of out.new.items ≡ function p.now f.now (pieces_of out.old.items)) }
{
    let structures = p.structures.all();
    let (params, locals) = split_locals(f);
    put_closed(out, 0)?;
    let c = Context {
        program: p,
        func: f,
    };
    put_stmts(out, c, f.body.all(), 1)?;
    put_member_lines(out, structures, locals)?;
    put_opened(out)?;
    put_behind(out, structures, &f.sig.result, Inside::Name)?;
    mark(out, Mark::RParen)?;
    put_named_parameters(out, structures, params)?;
    mark(out, Mark::LParen)?;
    name(out, f.name.all())?;
    put_front(out, structures, &f.sig.result, Inside::Name)
}

/// Puts the functions in front.
pub fn put_functions<'p>(out: &mut Vec<Symbol>, p: &'p Program) -> Result<(), NoMemory>
    requires { AreSized p.now.structures p.now.target }
    ensures { OnOk result (pieces_of out.new.items ≡ each (function p.now) p.now.funcs (pieces_of out.old.items)) }
{
    let funcs = p.funcs.all();
    let mut left = funcs.len();
    while left > 0 {
        left -= 1;
        put_function(out, p, &funcs[left])?;
    }
    Ok(())
}
