//! Structures (C99 6.7.2.1).

ghost use Rattle.std.specs.Prelude.{◌≡◌, ◌∷◌, OnOk, take};
ghost use Rattle.cc_pieces.specs.Pieces.{ident, keyword, space};
ghost use Rattle.cc_pieces.specs.View.{pieces_of};
ghost use Rattle.cc_program.specs.CcWords.declared.word.Word.TheVariants as w;
ghost use Rattle.cc_print.specs.Units.{each, is_base as is_base_of, is_named_in as is_named_in_of, is_named_by as is_named_by_of, any_true, naming as naming_of, or_else, member_naming as member_naming_of, first_naming as first_naming_of, is_in_parameters as is_in_parameters_of, tag_line, line_if, announcements, member_line, structure_of, structure};
ghost use Rattle.std.specs.Prelude.{map};
ghost use Rattle.cc_program.specs.declared.types.Sig.{out-Sig};

use cc_bodies::{put_ended, put_opened};
use cc_lex::Mark;
use cc_pieces::{Piece, Symbol, mark, put, put_all, put_declaration};
use cc_program::num::{Name, NoMemory};
use cc_program::words::Word;
use cc_program::{CType, Shape, Sig, Structure};

/// Whether the words of a type name the structure.
#[tactic(auto, unfolding(crate::specs::Units::is_base))]
fn is_base(id: usize, t: &CType) -> bool
    ensures { result ≡ is_base_of id t.now }
{
    match &t.shape {
        Shape::Struct(s) => id == *s as usize,
        Shape::Pointer(to) => is_base(id, to.get()),
        Shape::Array(of, _) => is_base(id, of.get()),
        Shape::Func(sig) => is_base(id, &sig.get().result),
        Shape::Void => false,
        Shape::Int(_) => false,
    }
}

/// Whether a type names the structure at all.
#[cycle(naming)]
#[tactic(auto, unfolding(crate::specs::Units::is_named_in, crate::specs::Units::is_named_by))]
fn is_named_in(id: usize, t: &CType) -> bool
    ensures { result ≡ is_named_in_of id t.now }
{
    match &t.shape {
        Shape::Struct(s) => id == *s as usize,
        Shape::Pointer(to) => is_named_in(id, to.get()),
        Shape::Array(of, _) => is_named_in(id, of.get()),
        Shape::Func(sig) => is_named_by(id, sig.get()),
        Shape::Void => false,
        Shape::Int(_) => false,
    }
}

#[cycle(naming)]
#[tactic(auto, unfolding(crate::specs::Units::is_named_in, crate::specs::Units::is_named_by))]
fn is_named_by(id: usize, sig: &Sig) -> bool
    ensures { result ≡ is_named_by_of id sig.now }
{
    is_named_in(id, &sig.result) || is_named_in_any(id, sig)
}

#[cycle(naming)]
fn is_named_in_any(id: usize, sig: &Sig) -> bool
    ensures { result ≡ any_true (map (is_named_in_of id) (out-Sig sig.now).params) }
{
    for t in sig.params.all() {
        if is_named_in(id, t) {
            return true;
        }
    }
    false
}

/// Where a type names the structure first: in a list of parameters or not.
fn naming(id: usize, t: &CType) -> Option<bool>
    ensures { result ≡ naming_of id t.now }
{
    if is_base(id, t) {
        Some(false)
    } else if is_named_in(id, t) {
        Some(true)
    } else {
        None
    }
}

fn member_naming(id: usize, members: &[(Name, CType)]) -> Option<bool>
    ensures { result ≡ member_naming_of id members.now }
{
    let mut left = members;
    while let [(_, t), rest @ ..] = left {
        if let Some(found) = naming(id, t) {
            return Some(found);
        }
        left = rest;
    }
    None
}

fn first_naming(id: usize, structures: &[Structure]) -> Option<bool>
    ensures { result ≡ first_naming_of id structures.now }
{
    let mut left = structures;
    while let [s, rest @ ..] = left {
        if let Some(found) = member_naming(id, s.members.all()) {
            return Some(found);
        }
        left = rest;
    }
    None
}

fn is_in_parameters(found: Option<bool>) -> bool
    ensures { result ≡ is_in_parameters_of found }
{
    match found {
        None => false,
        Some(found) => found,
    }
}

fn put_tag<'p>(out: &mut Vec<Symbol>, s: &'p Structure) -> Result<(), NoMemory>
    ensures { OnOk result (pieces_of out.new.items ≡ keyword w.Struct ∷ space ∷ ident s.now.tag ∷ pieces_of out.old.items) }
{
    put_all(
        out,
        &[
            Piece::Keyword(Word::Struct),
            Piece::Space,
            Piece::Name(s.tag.all()),
        ],
    )
}

fn put_tag_line<'p>(out: &mut Vec<Symbol>, s: &'p Structure) -> Result<(), NoMemory>
    ensures { OnOk result (pieces_of out.new.items ≡ tag_line s.now (pieces_of out.old.items)) }
{
    put_ended(out)?;
    put_tag(out, s)
}

fn put_line_if<'p>(out: &mut Vec<Symbol>, is_there: bool, s: &'p Structure) -> Result<(), NoMemory>
    ensures { OnOk result (pieces_of out.new.items ≡ line_if is_there s.now (pieces_of out.old.items)) }
{
    if is_there {
        put_tag_line(out, s)
    } else {
        Ok(())
    }
}

/// Puts lines in front that name the structures which a list of parameters would name first.
pub fn put_announcements<'p>(
    out: &mut Vec<Symbol>,
    structures: &'p [Structure],
) -> Result<(), NoMemory>
    ensures { OnOk result (pieces_of out.new.items ≡ announcements structures.now 0 structures.now (pieces_of out.old.items)) }
{
    let mut left = structures.len();
    while left > 0 {
        left -= 1;
        let first = first_naming(left, &structures[..left]);
        put_line_if(out, is_in_parameters(first), &structures[left])?;
    }
    Ok(())
}

fn put_member_line<'p>(
    out: &mut Vec<Symbol>,
    structures: &'p [Structure],
    member: &'p (Name, CType),
) -> Result<(), NoMemory>
    ensures { OnOk result (pieces_of out.new.items ≡ member_line structures.now member.now (pieces_of out.old.items)) }
{
    put_ended(out)?;
    put_declaration(out, structures, &member.1, member.0.all())?;
    put(out, Piece::Indent(1))
}

/// Puts lines in front that declare names, of members or locals.
pub fn put_member_lines<'p>(
    out: &mut Vec<Symbol>,
    structures: &'p [Structure],
    members: &'p [(Name, CType)],
) -> Result<(), NoMemory>
    ensures { OnOk result (pieces_of out.new.items ≡ each (member_line structures.now) members.now (pieces_of out.old.items)) }
{
    let mut left = members.len();
    while left > 0 {
        left -= 1;
        put_member_line(out, structures, &members[left])?;
    }
    Ok(())
}

fn put_structure<'p>(
    out: &mut Vec<Symbol>,
    structures: &'p [Structure],
    s: &'p Structure,
) -> Result<(), NoMemory>
    ensures { OnOk result (pieces_of out.new.items ≡ structure structures.now s.now (pieces_of out.old.items)) }
{
    if s.members.all().is_empty() {
        put_tag_line(out, s)?;
        return Ok(());
    }
    put_ended(out)?;
    mark(out, Mark::RBrace)?;
    put_member_lines(out, structures, s.members.all())?;
    put_opened(out)?;
    put_tag(out, s)?;
    Ok(())
}

/// Puts the structures in front.
pub fn put_structures<'p>(
    out: &mut Vec<Symbol>,
    structures: &'p [Structure],
) -> Result<(), NoMemory>
    ensures { OnOk result (pieces_of out.new.items ≡ each (structure structures.now) structures.now (pieces_of out.old.items)) }
{
    let mut left = structures.len();
    while left > 0 {
        left -= 1;
        put_structure(out, structures, &structures[left])?;
    }
    Ok(())
}
