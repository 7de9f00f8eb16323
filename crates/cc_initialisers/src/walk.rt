//! What is done for an initialiser, as the object's type goes (C99 6.7.8).

ghost use Rattle.std.specs.Prelude.{◌≡◌, ◌++◌, ◌≤◌, false, IfOk, OnOk, map};
ghost use Rattle.cc_initialisers.specs.Contents.{contents};
ghost use Rattle.cc_initialisers.specs.Counts.{initialisers_among};
ghost use Rattle.cc_initialisers.specs.Initialisers.{chars_given as chars_given_of, text_by as text_by_of, text_given as text_given_of, string_for as string_for_of, all_taken, scalar_given as scalar_given_of, scalar_filled as scalar_filled_of, sole as sole_of, list_braced, repeated, elided as elided_of, started as started_of, here, behind, initialised as initialised_of, aggregate_initialised as aggregate_initialised_of};
ghost use Rattle.cc_initialisers.specs.View.{part_view, members_view, content_view, step_view, steps_of};
ghost use Rattle.cc_operands.specs.CcTyped.View.{value_view};

use crate::content::{Content, Members, Part};
use crate::given::{nothing_left, refuse, string_for};
use crate::step::{Step, put_breach, put_character, put_given, put_zero};
use cc_operands::Rule;
use cc_operands::syntax::{CType, Structure};
use cc_operands::typed_crate::ValueType;
use cc_program::num::{NoMemory, at};
use cc_tree::{At, Given};
use std::alloc::Global;

/// A string: its characters, and zeros for the rest.
#[tactic(auto, using(crate::proofs::Characters::of_characters))]
fn chars_given<'p>(
    alloc: Global,
    place: u32,
    constant: bool,
    t: ValueType,
    n: u32,
    bytes: &[u8],
    out: &mut Vec<Step<'p>>,
) -> Result<(), NoMemory>
    ensures { OnOk result (steps_of out.new ≡ steps_of out.old ++ chars_given_of place constant (value_view t.entry) n bytes.now) }
{
    for i in 0..n {
        put_character(alloc, place, constant, t, at(bytes, i as usize), out)?;
    }
    Ok(())
}

/// A string for so many elements of such contents.
fn text_by<'p>(
    alloc: Global,
    place: u32,
    n: u32,
    of: Content,
    bytes: &[u8],
    out: &mut Vec<Step<'p>>,
) -> Result<(), NoMemory>
    ensures { OnOk result (steps_of out.new ≡ steps_of out.old ++ text_by_of place n (content_view of.entry) bytes.now) }
{
    match of {
        Content::Scalar(constant, t) => {
            if bytes.len() <= n as usize {
                chars_given(alloc, place, constant, t, n, bytes, out)
            } else {
                put_breach(place, Rule::InitialiserShape, out)
            }
        }
        Content::Elements(_, _) => put_breach(place, Rule::InitialiserShape, out),
        Content::Members(_) => put_breach(place, Rule::InitialiserShape, out),
    }
}

/// A string for an array of characters (C99 6.7.8, 14).
fn text_given<'p>(
    alloc: Global,
    place: u32,
    object: Content,
    bytes: &[u8],
    out: &mut Vec<Step<'p>>,
) -> Result<(), NoMemory>
    ensures { OnOk result (steps_of out.new ≡ steps_of out.old ++ text_given_of place (content_view object.entry) bytes.now) }
{
    match object {
        Content::Elements(n, of) => text_by(alloc, place, n, of.content(), bytes, out),
        Content::Scalar(_, _) => put_breach(place, Rule::InitialiserShape, out),
        Content::Members(_) => put_breach(place, Rule::InitialiserShape, out),
    }
}

/// A scalar takes one expression, in braces or not (C99 6.7.8, 11).
#[tactic(auto, using(crate::proofs::Layers::of_layers, crate::proofs::Steps::of_steps))]
fn sole<'p>(
    alloc: Global,
    constant: bool,
    t: ValueType,
    place: u32,
    gs: &'p [At<Given>],
    out: &mut Vec<Step<'p>>,
) -> Result<(), NoMemory>
    ensures { OnOk result (steps_of out.new ≡ steps_of out.old ++ sole_of constant (value_view t.entry) place (map here gs.now)) }
{
    match gs {
        [] => put_breach(place, Rule::InitialiserShape, out),
        [g, rest @ ..] => match &g.node {
            Given::One(e) => {
                put_given(alloc, constant, t, e, out)?;
                nothing_left(rest, out)
            }
            Given::Many(_) => refuse(g, Rule::InitialiserShape, out),
        },
    }
}

/// A scalar is given an expression, or a list in braces.
#[tactic(auto, using(crate::proofs::Layers::of_layers))]
fn scalar_given<'p>(
    alloc: Global,
    constant: bool,
    t: ValueType,
    g: &'p At<Given>,
    out: &mut Vec<Step<'p>>,
) -> Result<(), NoMemory>
    ensures { OnOk result (steps_of out.new ≡ steps_of out.old ++ scalar_given_of constant (value_view t.entry) (here g.now) (here g.now).node.expression) }
{
    match &g.node {
        Given::One(e) => put_given(alloc, constant, t, e, out),
        Given::Many(gs) => sole(alloc, constant, t, g.at, gs.all(), out),
    }
}

/// A scalar takes what stands first in a list, or zero at its end.
fn scalar_filled<'p>(
    alloc: Global,
    constant: bool,
    t: ValueType,
    place: u32,
    gs: &'p [At<Given>],
    out: &mut Vec<Step<'p>>,
) -> Result<&'p [At<Given>], NoMemory>
    ensures filled { IfOk result (λ rest. (steps_of out.new, map here rest.now) ≡ behind (steps_of out.old) (scalar_filled_of constant (value_view t.entry) place (map here gs.now))) }
    ensures fewer { IfOk result (λ rest. initialisers_among rest.now ≤ initialisers_among gs.now) }
{
    match gs {
        [] => {
            put_zero(alloc, place, constant, t, out)?;
            Ok(gs)
        }
        [g, rest @ ..] => {
            scalar_given(alloc, constant, t, g, out)?;
            Ok(rest)
        }
    }
}

/// A list in braces for an object (C99 6.7.8, 16).
#[cycle(walk)]
fn braced<'p>(
    alloc: Global,
    object: Content,
    place: u32,
    gs: &'p [At<Given>],
    out: &mut Vec<Step<'p>>,
) -> Result<(), NoMemory>
    ensures { OnOk result (steps_of out.new ≡ steps_of out.old ++ list_braced (map here gs.now) (content_view object.entry) place) }
{
    match object {
        Content::Scalar(constant, t) => sole(alloc, constant, t, place, gs, out),
        Content::Elements(_, _) => taken(alloc, object, place, gs, out),
        Content::Members(_) => taken(alloc, object, place, gs, out),
    }
}

/// A list of which an object takes all.
#[cycle(walk)]
fn taken<'p>(
    alloc: Global,
    object: Content,
    place: u32,
    gs: &'p [At<Given>],
    out: &mut Vec<Step<'p>>,
) -> Result<(), NoMemory>
    ensures { OnOk result (steps_of out.new ≡ steps_of out.old ++ all_taken (elided_of (content_view object.entry) place (map here gs.now))) }
{
    let rest = elided(alloc, object, place, gs, out)?;
    nothing_left(rest, out)
}

/// So many elements take from a list what they have scalars for.
#[cycle(walk)]
fn elements_filled<'p>(
    alloc: Global,
    n: u32,
    of: Part,
    place: u32,
    gs: &'p [At<Given>],
    out: &mut Vec<Step<'p>>,
) -> Result<&'p [At<Given>], NoMemory>
    ensures filled { IfOk result (λ rest. (steps_of out.new, map here rest.now) ≡ behind (steps_of out.old) (repeated n (started_of (part_view of.entry) (elided_of (part_view of.entry))) place (map here gs.now))) }
    ensures fewer { IfOk result (λ rest. initialisers_among rest.now ≤ initialisers_among gs.now) }
{
    let mut rest = gs;
    let mut missing = n;
    while missing > 0 {
        rest = started(alloc, of.content(), place, rest, out)?;
        missing -= 1;
    }
    Ok(rest)
}

/// Members take from a list what they have scalars for.
#[cycle(walk)]
fn members_filled<'p>(
    alloc: Global,
    members: Members,
    place: u32,
    gs: &'p [At<Given>],
    out: &mut Vec<Step<'p>>,
) -> Result<&'p [At<Given>], NoMemory>
    ensures filled { IfOk result (λ rest. (steps_of out.new, map here rest.now) ≡ behind (steps_of out.old) (elided_of (members_view members.entry) place (map here gs.now))) }
    ensures fewer { IfOk result (λ rest. initialisers_among rest.now ≤ initialisers_among gs.now) }
{
    let mut rest = gs;
    for member in members.all {
        rest = started(alloc, members.part(member).content(), place, rest, out)?;
    }
    Ok(rest)
}

/// An object without braces of its own takes from a list what it has scalars for (C99 6.7.8, 20).
#[cycle(walk)]
fn elided<'p>(
    alloc: Global,
    object: Content,
    place: u32,
    gs: &'p [At<Given>],
    out: &mut Vec<Step<'p>>,
) -> Result<&'p [At<Given>], NoMemory>
    ensures filled { IfOk result (λ rest. (steps_of out.new, map here rest.now) ≡ behind (steps_of out.old) (elided_of (content_view object.entry) place (map here gs.now))) }
    ensures fewer { IfOk result (λ rest. initialisers_among rest.now ≤ initialisers_among gs.now) }
{
    match object {
        Content::Scalar(constant, t) => scalar_filled(alloc, constant, t, place, gs, out),
        Content::Elements(n, of) => elements_filled(alloc, n, of, place, gs, out),
        Content::Members(members) => members_filled(alloc, members, place, gs, out),
    }
}

/// A part of an object: a string, a list in braces, or what it takes itself.
#[cycle(walk)]
pub fn started<'p>(
    alloc: Global,
    object: Content,
    place: u32,
    gs: &'p [At<Given>],
    out: &mut Vec<Step<'p>>,
) -> Result<&'p [At<Given>], NoMemory>
    ensures filled { IfOk result (λ rest. (steps_of out.new, map here rest.now) ≡ behind (steps_of out.old) (started_of (content_view object.entry) (elided_of (content_view object.entry)) place (map here gs.now))) }
    ensures fewer { IfOk result (λ rest. initialisers_among rest.now ≤ initialisers_among gs.now) }
{
    let [g, rest @ ..] = gs else {
        return elided(alloc, object, place, gs, out);
    };
    if object.is_scalar() {
        return elided(alloc, object, place, gs, out);
    }
    if let Some(bytes) = string_for(object, &g.node) {
        text_given(alloc, g.at, object, bytes, out)?;
        return Ok(rest);
    }
    match &g.node {
        Given::Many(inner) => {
            braced(alloc, object, g.at, inner.all(), out)?;
            Ok(rest)
        }
        Given::One(_) => elided(alloc, object, place, gs, out),
    }
}

/// What is done for the initialiser of an array or a structure.
#[tactic(auto, using(crate::proofs::Layers::of_layers))]
fn aggregate_initialised<'p>(
    alloc: Global,
    object: Content,
    g: &'p At<Given>,
    out: &mut Vec<Step<'p>>,
) -> Result<(), NoMemory>
    ensures { OnOk result (steps_of out.new ≡ steps_of out.old ++ aggregate_initialised_of (content_view object.entry) (here g.now) (string_for_of (content_view object.entry) (here g.now).node.text)) }
{
    if let Some(bytes) = string_for(object, &g.node) {
        return text_given(alloc, g.at, object, bytes, out);
    }
    match &g.node {
        Given::Many(gs) => braced(alloc, object, g.at, gs.all(), out),
        Given::One(_) => refuse(g, Rule::InitialiserShape, out),
    }
}

fn object_initialised<'p>(
    alloc: Global,
    object: Content,
    g: &'p At<Given>,
    out: &mut Vec<Step<'p>>,
) -> Result<(), NoMemory>
    ensures { OnOk result (steps_of out.new ≡ steps_of out.old ++ initialised_of (content_view object.entry) (here g.now)) }
{
    match object {
        Content::Scalar(constant, t) => scalar_given(alloc, constant, t, g, out),
        Content::Elements(_, _) => aggregate_initialised(alloc, object, g, out),
        Content::Members(_) => aggregate_initialised(alloc, object, g, out),
    }
}

/// What is done for the initialiser of an object of the type, from left to right: each scalar of it is given something
/// in the order of paths, or a rule is broken.
#[tactic(auto, using(crate::proofs::Steps::of_steps), unfolding(crate::specs::View::steps_of))]
pub fn initialised<'p>(
    alloc: Global,
    structures: &[Structure],
    t: &CType,
    g: &'p At<Given>,
) -> Result<Vec<Step<'p>>, NoMemory>
    ensures { IfOk result (λ steps. map step_view steps.items ≡ initialised_of (contents structures.now t.now false) (here g.now)) }
{
    let mut out = Vec::new(alloc);
    object_initialised(alloc, Part::whole(structures, t).content(), g, &mut out)?;
    Ok(out)
}
