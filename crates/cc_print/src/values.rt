//! The first values of static objects (C99 6.7.8).

ghost use Rattle.std.specs.Prelude.{◌≡◌, ◌∷◌, OnOk, IfOk, map, option_and_then, option_map, slice_get};
ghost use Rattle.std.specs.Option.{option_copied};
ghost use Rattle.cc_pieces.specs.View.{pieces_of};
ghost use Rattle.cc_print.specs.Values.{filled, is_element as is_element_of, has_elements as has_elements_of, one_past, last_index, step_text, next_place as next_place_of, path_text, object_path, root_path, address_text, int_leaf, pointer_leaf, elements, all_members, scalar, filler, member_fillers, structure_fillers, value, has_leaves as has_leaves_of, definition_line, definition};
ghost use Rattle.cc_print.specs.Units.{each};
ghost use Rattle.cc_lex.specs.declared.token.Mark.TheVariants as m;
ghost use Rattle.cc_pieces.specs.Pieces.{punct, plain_number, space};
ghost use Rattle.cc_typed.specs.CcSyntax.Values.{element_of as element_of_place};
ghost use Rattle.cc_typed.specs.View.{place_view};

use cc_bodies::{func_name, member_name, put_ended, put_named};
use cc_lex::Mark;
use cc_pieces::{
    Piece, Symbol, mark, number, number_piece, put_all, put_constant, put_declaration, spaced_mark,
};
use cc_program::num::{IntType, Name, NoMemory, at};
use cc_program::words::Word;
use cc_program::{Address, CType, Leaf, Object, Part, Program, Root, Shape, Structure};
use cc_typed::{PlaceType, alike, object_place, step_into};

fn is_element(to: &CType, element: Option<PlaceType>) -> bool
    ensures { result ≡ is_element_of to.now (option_map place_view element.entry) }
{
    match element {
        None => false,
        Some(PlaceType::Device(_, _)) => false,
        Some(PlaceType::Object(_, _, t)) => alike(to, t),
        Some(PlaceType::Function(_)) => false,
    }
}

/// The elements of the array at a place.
fn element_of<'p>(a: Option<PlaceType<'p>>) -> Option<PlaceType<'p>>
    ensures { option_map place_view result ≡ option_and_then element_of_place (option_map place_view a.entry) }
{
    match a {
        None => None,
        Some(a) => a.element(),
    }
}

/// Whether the elements of the array at a place have the type.
fn has_elements(to: &CType, a: Option<PlaceType>) -> bool
    ensures { result ≡ has_elements_of to.now (option_map place_view a.entry) }
{
    is_element(to, element_of(a))
}

fn put_index(out: &mut Vec<Symbol>, index: u32) -> Result<(), NoMemory>
    ensures { OnOk result (pieces_of out.new.items ≡ punct m.LBracket ∷ plain_number index ∷ punct m.RBracket ∷ pieces_of out.old.items) }
{
    put_all(
        out,
        &[
            Piece::Punct(Mark::LBracket),
            number_piece(u128::from(index), false, 0),
            Piece::Punct(Mark::RBracket),
        ],
    )
}

fn put_one_past(out: &mut Vec<Symbol>, is_past: bool) -> Result<(), NoMemory>
    ensures { OnOk result (pieces_of out.new.items ≡ one_past is_past (pieces_of out.old.items)) }
{
    if is_past {
        put_all(
            out,
            &[
                Piece::Space,
                Piece::Punct(Mark::Plus),
                Piece::Space,
                number_piece(1, false, 0),
            ],
        )
    } else {
        Ok(())
    }
}

fn put_last_index(
    out: &mut Vec<Symbol>,
    is_element: bool,
    index: u32,
    count: u32,
) -> Result<(), NoMemory>
    ensures { OnOk result (pieces_of out.new.items ≡ last_index is_element index count (pieces_of out.old.items)) }
{
    if is_element {
        put_index(out, index)
    } else {
        put_one_past(out, index == count)
    }
}

fn put_step<'p>(
    out: &mut Vec<Symbol>,
    structures: &'p [Structure],
    a: Option<PlaceType<'p>>,
    step: Part,
) -> Result<(), NoMemory>
    ensures { OnOk result (pieces_of out.new.items ≡ step_text structures.now (option_map place_view a.entry) step (pieces_of out.old.items)) }
{
    match step {
        Part::Member(i) => {
            put_named(out, member_name(structures, i, a))?;
            mark(out, Mark::Dot)
        }
        Part::Index(i) => put_index(out, i),
    }
}

fn next_place<'p>(
    structures: &'p [Structure],
    step: Part,
    a: Option<PlaceType<'p>>,
) -> Option<PlaceType<'p>>
    ensures { option_map place_view result ≡ next_place_of structures.now step (option_map place_view a.entry) }
{
    match a {
        None => None,
        Some(a) => step_into(structures, step, a),
    }
}

/// Puts members and indexes in front, and behind them the last index for a pointer to a type. A path is as deep as
/// the type of its object.
fn put_path<'p>(
    out: &mut Vec<Symbol>,
    structures: &'p [Structure],
    to: &'p CType,
    index: u32,
    count: u32,
    a: Option<PlaceType<'p>>,
    path: &'p [Part],
) -> Result<(), NoMemory>
    ensures { OnOk result (pieces_of out.new.items ≡ path_text structures.now to.now index count (option_map place_view a.entry) path.now (pieces_of out.old.items)) }
{
    match path {
        [] => put_last_index(out, has_elements(to, a), index, count),
        [step, rest @ ..] => {
            let next = next_place(structures, *step, a);
            put_path(out, structures, to, index, count, next, rest)?;
            put_step(out, structures, a, *step)
        }
    }
}

fn put_object_path<'p>(
    out: &mut Vec<Symbol>,
    p: &'p Program,
    to: &'p CType,
    path: &'p [Part],
    index: u32,
    count: u32,
    object: Option<&'p Object>,
) -> Result<(), NoMemory>
    ensures { OnOk result (pieces_of out.new.items ≡ object_path p.now to.now path.now index count (option_copied object.entry) (pieces_of out.old.items)) }
{
    match object {
        None => Ok(()),
        Some(o) => {
            let place = object_place(&o.ctype);
            put_path(out, p.structures.all(), to, index, count, Some(place), path)?;
            put_named(out, Some(&o.name))
        }
    }
}

fn put_root_path<'p>(
    out: &mut Vec<Symbol>,
    p: &'p Program,
    to: &'p CType,
    path: &'p [Part],
    index: u32,
    count: u32,
    object: Root,
) -> Result<(), NoMemory>
    ensures { OnOk result (pieces_of out.new.items ≡ root_path p.now to.now path.now index count object (pieces_of out.old.items)) }
{
    match object {
        Root::Static(i) => {
            put_object_path(
                out,
                p,
                to,
                path,
                index,
                count,
                at(p.objects.all(), i as usize),
            )?;
            mark(out, Mark::Amp)
        }
        Root::Auto {
            activation: _,
            func: _,
            local: _,
        } => Ok(()),
    }
}

/// Puts the value of a pointer to a type in front.
fn put_address<'p>(
    out: &mut Vec<Symbol>,
    p: &'p Program,
    to: &'p CType,
    a: &'p Address,
) -> Result<(), NoMemory>
    ensures { OnOk result (pieces_of out.new.items ≡ address_text p.now to.now a.now (pieces_of out.old.items)) }
{
    match a {
        Address::Null => number(out, 0, false, 0),
        Address::Func(i) => put_named(out, func_name(p.funcs.all(), *i)),
        Address::At {
            object,
            path,
            index,
            count,
        } => put_root_path(out, p, to, path.all(), *index, *count, *object),
    }
}

fn put_int_leaf(
    out: &mut Vec<Symbol>,
    p: &Program,
    t: IntType,
    leaf: Option<&Leaf>,
) -> Result<(), NoMemory>
    ensures { OnOk result (pieces_of out.new.items ≡ int_leaf p.now t (option_copied leaf.entry) (pieces_of out.old.items)) }
{
    match leaf {
        None => put_constant(out, &p.target, 0, t),
        Some(Leaf::Int(n)) => put_constant(out, &p.target, *n, t),
        Some(Leaf::Place(_)) => put_constant(out, &p.target, 0, t),
    }
}

fn put_pointer_leaf<'p>(
    out: &mut Vec<Symbol>,
    p: &'p Program,
    to: &'p CType,
    leaf: Option<&'p Leaf>,
) -> Result<(), NoMemory>
    ensures { OnOk result (pieces_of out.new.items ≡ pointer_leaf p.now to.now (option_copied leaf.entry) (pieces_of out.old.items)) }
{
    match leaf {
        None => number(out, 0, false, 0),
        Some(Leaf::Int(_)) => number(out, 0, false, 0),
        Some(Leaf::Place(a)) => put_address(out, p, to, a),
    }
}

/// What values are printed with: the program, and the leaves of an object.
#[derive(Clone, Copy)]
struct Source<'p> {
    program: &'p Program,
    leaves: &'p [Leaf],
}

fn put_int<'p>(
    out: &mut Vec<Symbol>,
    source: Source<'p>,
    t: IntType,
    left: usize,
) -> Result<usize, NoMemory>
    ensures { IfOk result (λ r. filled r (pieces_of out.new.items) ≡ scalar source.entry.program.now source.entry.leaves.now (int_leaf source.entry.program.now t) left (pieces_of out.old.items)) }
{
    if left == 0 {
        put_int_leaf(out, source.program, t, None)?;
        return Ok(0);
    }
    let next = left - 1;
    put_int_leaf(out, source.program, t, at(source.leaves, next))?;
    Ok(next)
}

fn put_pointer<'p>(
    out: &mut Vec<Symbol>,
    source: Source<'p>,
    to: &'p CType,
    left: usize,
) -> Result<usize, NoMemory>
    ensures { IfOk result (λ r. filled r (pieces_of out.new.items) ≡ scalar source.entry.program.now source.entry.leaves.now (pointer_leaf source.entry.program.now to.now) left (pieces_of out.old.items)) }
{
    if left == 0 {
        put_pointer_leaf(out, source.program, to, None)?;
        return Ok(0);
    }
    let next = left - 1;
    put_pointer_leaf(out, source.program, to, at(source.leaves, next))?;
    Ok(next)
}

/// Puts a comma and a space in front.
fn put_separator(out: &mut Vec<Symbol>) -> Result<(), NoMemory>
    ensures { OnOk result (pieces_of out.new.items ≡ punct m.Comma ∷ space ∷ pieces_of out.old.items) }
{
    put_all(out, &[Piece::Punct(Mark::Comma), Piece::Space])
}

/// Puts a value of a type in front, with the last of so many leaves that are left, and gives how many are left then.
#[cycle(values)]
#[tactic(auto, using(crate::proofs::FillerLemmas::of_fillers))]
fn put_value<'p>(
    out: &mut Vec<Symbol>,
    source: Source<'p>,
    structures: &'p [Structure],
    left: usize,
    t: &'p CType,
) -> Result<usize, NoMemory>
    ensures { IfOk result (λ r. filled r (pieces_of out.new.items) ≡ filler source.entry.program.now source.entry.leaves.now structures.now t.now (filled left (pieces_of out.old.items))) }
{
    match &t.shape {
        Shape::Int(i) => put_int(out, source, *i, left),
        Shape::Pointer(to) => put_pointer(out, source, to.get(), left),
        Shape::Array(of, n) => {
            mark(out, Mark::RBrace)?;
            let left = put_elements(out, source, structures, left, of.get(), *n)?;
            mark(out, Mark::LBrace)?;
            Ok(left)
        }
        Shape::Struct(s) => {
            let s = *s as usize;
            if s < structures.len() {
                mark(out, Mark::RBrace)?;
                let members = structures[s].members.all();
                let left = put_members(out, source, &structures[..s], left, members)?;
                mark(out, Mark::LBrace)?;
                Ok(left)
            } else {
                Ok(left)
            }
        }
        Shape::Void => Ok(left),
        Shape::Func(_) => Ok(left),
    }
}

#[cycle(values)]
fn put_elements<'p>(
    out: &mut Vec<Symbol>,
    source: Source<'p>,
    structures: &'p [Structure],
    left: usize,
    of: &'p CType,
    n: u32,
) -> Result<usize, NoMemory>
    ensures { IfOk result (λ r. filled r (pieces_of out.new.items) ≡ elements n (filler source.entry.program.now source.entry.leaves.now structures.now of.now) (filled left (pieces_of out.old.items))) }
{
    if n == 0 {
        return Ok(left);
    }
    let mut rest = put_value(out, source, structures, left, of)?;
    let mut more = n - 1;
    while more > 0 {
        more -= 1;
        put_separator(out)?;
        rest = put_value(out, source, structures, rest, of)?;
    }
    Ok(rest)
}

#[cycle(values)]
fn put_members<'p>(
    out: &mut Vec<Symbol>,
    source: Source<'p>,
    structures: &'p [Structure],
    left: usize,
    members: &'p [(Name, CType)],
) -> Result<usize, NoMemory>
    ensures { IfOk result (λ r. filled r (pieces_of out.new.items) ≡ all_members (member_fillers source.entry.program.now source.entry.leaves.now (structure_fillers source.entry.program.now source.entry.leaves.now structures.now) members.now) (filled left (pieces_of out.old.items))) }
{
    if members.is_empty() {
        return Ok(left);
    }
    let mut rest = left;
    let mut i = members.len();
    while i > 1 {
        i -= 1;
        rest = put_value(out, source, structures, rest, &members[i].1)?;
        put_separator(out)?;
    }
    rest = put_value(out, source, structures, rest, &members[0].1)?;
    Ok(rest)
}

fn put_object_value<'p>(
    out: &mut Vec<Symbol>,
    p: &'p Program,
    o: &'p Object,
) -> Result<(), NoMemory>
    ensures { OnOk result (pieces_of out.new.items ≡ value p.now o.now (pieces_of out.old.items)) }
{
    let leaves = o.init.all();
    let source = Source { program: p, leaves };
    let _left = put_value(out, source, p.structures.all(), leaves.len(), &o.ctype)?;
    Ok(())
}

fn has_leaves(leaves: &[Leaf]) -> bool
    ensures { result ≡ has_leaves_of leaves.now }
{
    match leaves {
        [] => false,
        [_, ..] => true,
    }
}

fn put_definition_line<'p>(
    out: &mut Vec<Symbol>,
    p: &'p Program,
    o: &'p Object,
) -> Result<(), NoMemory>
    ensures { OnOk result (pieces_of out.new.items ≡ definition_line p.now o.now (pieces_of out.old.items)) }
{
    put_ended(out)?;
    put_object_value(out, p, o)?;
    spaced_mark(out, Mark::Assign)?;
    put_declaration(out, p.structures.all(), &o.ctype, o.name.all())?;
    put_all(out, &[Piece::Keyword(Word::Static), Piece::Space])
}

fn put_definition<'p>(out: &mut Vec<Symbol>, p: &'p Program, o: &'p Object) -> Result<(), NoMemory>
    ensures { OnOk result (pieces_of out.new.items ≡ definition p.now o.now (pieces_of out.old.items)) }
{
    if has_leaves(o.init.all()) || o.ctype.is_const() {
        put_definition_line(out, p, o)
    } else {
        Ok(())
    }
}

/// Puts the definitions of static objects in front that have first values or are const.
pub fn put_definitions<'p>(out: &mut Vec<Symbol>, p: &'p Program) -> Result<(), NoMemory>
    ensures { OnOk result (pieces_of out.new.items ≡ each (definition p.now) p.now.objects (pieces_of out.old.items)) }
{
    let objects = p.objects.all();
    let mut left = objects.len();
    while left > 0 {
        left -= 1;
        put_definition(out, p, &objects[left])?;
    }
    Ok(())
}
