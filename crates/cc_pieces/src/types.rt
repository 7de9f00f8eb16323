//! Declarations and names of types (C99 6.7.5, 6.7.6).

ghost use Rattle.std.specs.Prelude.{◌≡◌, ◌∷◌, OnOk, map, slice_get};
ghost use Rattle.std.specs.Option.{option_copied};
ghost use Rattle.cc_pieces.specs.Declarators.{gap, is_pointer as is_pointer_of, int_name, word_if, qualifiers, pointer_qualifiers, tag, further, parameters, declarator, signature, type_name, declaration, cast, int_cast};
ghost use Rattle.cc_pieces.specs.View.{pieces_of};
ghost use Rattle.cc_pieces.specs.Pieces.{keyword, plain_number, punct, space};
ghost use Rattle.cc_lex.specs.declared.token.Mark.TheVariants as m;
ghost use Rattle.cc_program.specs.declared.types.Sig.{out-Sig};
ghost use Rattle.cc_program.specs.CcWords.declared.word.Word.TheVariants as w;

use crate::piece::{Piece, Symbol};
use crate::puts::{close, mark, name, number_piece, open, put, put_all, two_words, word};
use cc_lex::Mark;
use cc_program::num::{IntType, NoMemory, at};
use cc_program::words::Word;
use cc_program::{CType, Shape, Sig, Structure};

/// What stands beside what a type writes, on the side of the declared name.
#[derive(Clone, Copy)]
pub enum Inside {
    /// Nothing: the type alone is written.
    Nothing,
    /// The name, or what an array or a function writes.
    Name,
    /// What a pointer writes.
    Pointer,
}

fn is_pointer(inside: Inside) -> bool
    ensures { result ≡ is_pointer_of inside }
{
    match inside {
        Inside::Nothing | Inside::Name => false,
        Inside::Pointer => true,
    }
}

fn put_gap(out: &mut Vec<Symbol>, inside: Inside) -> Result<(), NoMemory>
    ensures { OnOk result (pieces_of out.new.items ≡ gap inside (pieces_of out.old.items)) }
{
    match inside {
        Inside::Nothing => Ok(()),
        Inside::Name => put(out, Piece::Space),
        Inside::Pointer => put(out, Piece::Space),
    }
}

/// Puts the name of an integer type in front (C99 6.7.2).
pub fn put_int_name(out: &mut Vec<Symbol>, t: IntType) -> Result<(), NoMemory>
    ensures { OnOk result (pieces_of out.new.items ≡ int_name t (pieces_of out.old.items)) }
{
    match t {
        IntType::Bool => word(out, Word::Bool),
        IntType::Char => word(out, Word::Char),
        IntType::SChar => two_words(out, Word::Signed, Word::Char),
        IntType::UChar => two_words(out, Word::Unsigned, Word::Char),
        IntType::Short => word(out, Word::Short),
        IntType::UShort => two_words(out, Word::Unsigned, Word::Short),
        IntType::Int => word(out, Word::Int),
        IntType::UInt => two_words(out, Word::Unsigned, Word::Int),
        IntType::Long => word(out, Word::Long),
        IntType::ULong => two_words(out, Word::Unsigned, Word::Long),
        IntType::LongLong => two_words(out, Word::Long, Word::Long),
        IntType::ULongLong => {
            two_words(out, Word::Long, Word::Long)?;
            put(out, Piece::Space)?;
            word(out, Word::Unsigned)
        }
    }
}

fn put_word_if(out: &mut Vec<Symbol>, is_there: bool, w: Word) -> Result<(), NoMemory>
    ensures { OnOk result (pieces_of out.new.items ≡ word_if is_there w (pieces_of out.old.items)) }
{
    if is_there {
        put(out, Piece::Space)?;
        word(out, w)?;
    }
    Ok(())
}

/// Puts qualifiers in front of a type's words.
pub fn put_qualifiers(out: &mut Vec<Symbol>, constant: bool, volatile: bool) -> Result<(), NoMemory>
    ensures { OnOk result (pieces_of out.new.items ≡ qualifiers constant volatile (pieces_of out.old.items)) }
{
    put_word_if(out, volatile, Word::Volatile)?;
    put_word_if(out, constant, Word::Const)
}

fn put_pointer_qualifiers(
    out: &mut Vec<Symbol>,
    constant: bool,
    volatile: bool,
    inside: Inside,
) -> Result<(), NoMemory>
    ensures { OnOk result (pieces_of out.new.items ≡ pointer_qualifiers constant volatile inside (pieces_of out.old.items)) }
{
    match (constant, volatile) {
        (true, true) => {
            put_gap(out, inside)?;
            two_words(out, Word::Const, Word::Volatile)
        }
        (true, false) => {
            put_gap(out, inside)?;
            word(out, Word::Const)
        }
        (false, true) => {
            put_gap(out, inside)?;
            word(out, Word::Volatile)
        }
        (false, false) => Ok(()),
    }
}

fn put_tag<'p>(out: &mut Vec<Symbol>, structure: Option<&'p Structure>) -> Result<(), NoMemory>
    ensures { OnOk result (pieces_of out.new.items ≡ tag (option_copied structure.entry) (pieces_of out.old.items)) }
{
    match structure {
        None => Ok(()),
        Some(s) => name(out, s.tag.all()),
    }
}

fn put_struct<'p>(
    out: &mut Vec<Symbol>,
    structures: &'p [Structure],
    id: u32,
) -> Result<(), NoMemory>
    ensures { OnOk result (pieces_of out.new.items ≡ keyword w.Struct ∷ space ∷ tag (slice_get structures.now id) (pieces_of out.old.items)) }
{
    put_tag(out, at(structures, id as usize))?;
    put_all(out, &[Piece::Keyword(Word::Struct), Piece::Space])
}

/// Puts in front what a type writes in front of the declared name.
#[tactic(auto, unfolding(crate::specs::Declarators::declarator, crate::specs::Declarators::signature))]
pub fn put_front<'p>(
    out: &mut Vec<Symbol>,
    structures: &'p [Structure],
    t: &'p CType,
    inside: Inside,
) -> Result<(), NoMemory>
    ensures { OnOk result (pieces_of out.new.items ≡ (declarator structures.now t.now).front inside (pieces_of out.old.items)) }
{
    match &t.shape {
        Shape::Void => {
            put_gap(out, inside)?;
            word(out, Word::Void)?;
            put_qualifiers(out, t.constant, t.volatile)
        }
        Shape::Int(i) => {
            put_gap(out, inside)?;
            put_int_name(out, *i)?;
            put_qualifiers(out, t.constant, t.volatile)
        }
        Shape::Pointer(to) => {
            put_pointer_qualifiers(out, t.constant, t.volatile, inside)?;
            mark(out, Mark::Star)?;
            put_front(out, structures, to.get(), Inside::Pointer)
        }
        Shape::Array(of, _) => {
            open(out, is_pointer(inside))?;
            put_front(out, structures, of.get(), Inside::Name)
        }
        Shape::Struct(id) => {
            put_gap(out, inside)?;
            put_struct(out, structures, *id)?;
            put_qualifiers(out, t.constant, t.volatile)
        }
        Shape::Func(sig) => {
            open(out, is_pointer(inside))?;
            put_front(out, structures, &sig.get().result, Inside::Name)
        }
    }
}

/// Puts the bound of an array in front.
fn put_bound(out: &mut Vec<Symbol>, n: u32) -> Result<(), NoMemory>
    ensures { OnOk result (pieces_of out.new.items ≡ punct m.LBracket ∷ plain_number n ∷ punct m.RBracket ∷ pieces_of out.old.items) }
{
    put_all(
        out,
        &[
            Piece::Punct(Mark::LBracket),
            number_piece(u128::from(n), false, 0),
            Piece::Punct(Mark::RBracket),
        ],
    )
}

/// Puts in front what a type writes behind the declared name.
#[cycle(declarators)]
#[tactic(auto, unfolding(crate::specs::Declarators::declarator, crate::specs::Declarators::signature))]
pub fn put_behind<'p>(
    out: &mut Vec<Symbol>,
    structures: &'p [Structure],
    t: &'p CType,
    inside: Inside,
) -> Result<(), NoMemory>
    ensures { OnOk result (pieces_of out.new.items ≡ (declarator structures.now t.now).behind inside (pieces_of out.old.items)) }
{
    match &t.shape {
        Shape::Void => Ok(()),
        Shape::Int(_) => Ok(()),
        Shape::Struct(_) => Ok(()),
        Shape::Pointer(to) => put_behind(out, structures, to.get(), Inside::Pointer),
        Shape::Array(of, n) => {
            put_behind(out, structures, of.get(), Inside::Name)?;
            put_bound(out, *n)?;
            close(out, is_pointer(inside))
        }
        Shape::Func(sig) => {
            put_behind(out, structures, &sig.get().result, Inside::Name)?;
            mark(out, Mark::RParen)?;
            put_parameters(out, structures, sig.get())?;
            mark(out, Mark::LParen)?;
            close(out, is_pointer(inside))
        }
    }
}

/// Puts the types of a function's parameters in front.
#[cycle(declarators)]
#[tactic(auto, unfolding(crate::specs::Declarators::declarator, crate::specs::Declarators::signature))]
pub fn put_parameters<'p>(
    out: &mut Vec<Symbol>,
    structures: &'p [Structure],
    sig: &'p Sig,
) -> Result<(), NoMemory>
    ensures { OnOk result (pieces_of out.new.items ≡ (signature structures.now sig.now).parameters (pieces_of out.old.items)) }
{
    put_parameter_list(out, structures, sig)
}

#[cycle(declarators)]
fn put_parameter_list<'p>(
    out: &mut Vec<Symbol>,
    structures: &'p [Structure],
    sig: &'p Sig,
) -> Result<(), NoMemory>
    ensures { OnOk result (pieces_of out.new.items ≡ parameters (map (declarator structures.now) (out-Sig sig.now).params) (pieces_of out.old.items)) }
{
    let params = sig.params.all();
    if params.is_empty() {
        return word(out, Word::Void);
    }
    let mut left = params.len();
    while left > 1 {
        left -= 1;
        put_type_name(out, structures, &params[left])?;
        put_all(out, &[Piece::Punct(Mark::Comma), Piece::Space])?;
    }
    put_type_name(out, structures, &params[0])?;
    Ok(())
}

/// Puts the name of a type in front (C99 6.7.6).
#[cycle(declarators)]
pub fn put_type_name<'p>(
    out: &mut Vec<Symbol>,
    structures: &'p [Structure],
    t: &'p CType,
) -> Result<(), NoMemory>
    ensures { OnOk result (pieces_of out.new.items ≡ type_name structures.now t.now (pieces_of out.old.items)) }
{
    put_behind(out, structures, t, Inside::Nothing)?;
    put_front(out, structures, t, Inside::Nothing)
}

/// Puts the declaration of a name with a type in front (C99 6.7.5).
pub fn put_declaration<'p>(
    out: &mut Vec<Symbol>,
    structures: &'p [Structure],
    t: &'p CType,
    declared: &'p [u8],
) -> Result<(), NoMemory>
    ensures { OnOk result (pieces_of out.new.items ≡ declaration structures.now t.now declared.now (pieces_of out.old.items)) }
{
    put_behind(out, structures, t, Inside::Name)?;
    name(out, declared)?;
    put_front(out, structures, t, Inside::Name)
}

/// Puts a type in parentheses in front (C99 6.5.4).
pub fn put_cast<'p>(
    out: &mut Vec<Symbol>,
    structures: &'p [Structure],
    t: &'p CType,
) -> Result<(), NoMemory>
    ensures { OnOk result (pieces_of out.new.items ≡ cast structures.now t.now (pieces_of out.old.items)) }
{
    mark(out, Mark::RParen)?;
    put_type_name(out, structures, t)?;
    mark(out, Mark::LParen)
}

/// Puts an integer type in parentheses in front.
pub fn put_int_cast(out: &mut Vec<Symbol>, t: IntType) -> Result<(), NoMemory>
    ensures { OnOk result (pieces_of out.new.items ≡ int_cast t (pieces_of out.old.items)) }
{
    mark(out, Mark::RParen)?;
    put_int_name(out, t)?;
    mark(out, Mark::LParen)
}
