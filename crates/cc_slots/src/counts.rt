//! What the text says of a slot: its name, the size of one of its scalars, and how many of them are in RAM.

ghost use Rattle.std.specs.Prelude.{◌≡◌, ◌≤◌, ◌++◌, ◌∷◌, true, IfOk};
ghost use Rattle.std.specs.Option.{option_copied};
ghost use Rattle.cc_slots.specs.Counts.{name_in as name_in_of, scalar_of as scalar_of_type, scalar_bytes as scalar_bytes_of, scalar_count as scalar_count_of, scalars_of as scalars_of_object, slot_name as slot_name_of};
ghost use Rattle.cc_slots_structures.specs.Copies.{capped};
ghost use Rattle.cc_slots_structures.specs.Standings.{AreStandings};
ghost use Rattle.cc_state_points.specs.CcState.Shape.{IsSlot, is_scalar_type};
ghost use Rattle.cc_state_points.specs.CcSyntax.Layout.{size_of as size_of_type};

use cc_program::num::{List, Name, NoMemory, at};
use cc_program::{CType, Object, Program, Shape, Structure, copy_list};
use cc_slots_accesses::{ctype_of, length_of};
use cc_slots_structures::Standing;
use cc_state_points::state_facts::Key;
use std::alloc::Global;

/// The name of a member of a structure: that of the structure, a dot and its own.
fn name_of(alloc: Global, tag: &Name, name: &Name) -> Result<Name, NoMemory>
    ensures { IfOk result (λ whole. whole ≡ tag.now ++ 46 ∷ name.now) }
{
    let mut whole = Vec::from_slice(alloc, tag.all())?;
    whole.push(b'.')?;
    whole.extend_from_slice(name.all())?;
    Ok(List::of(whole))
}

/// The name of a member, where there is that.
fn name_in(alloc: Global, structure: Option<&Structure>, m: u32) -> Result<Name, NoMemory>
    ensures { IfOk result (λ name. name ≡ name_in_of (option_copied structure.entry) m) }
{
    match structure {
        None => Ok(List::of(Vec::new(alloc))),
        Some(s) => match at(s.members.all(), m as usize) {
            None => Ok(List::of(Vec::new(alloc))),
            Some(member) => name_of(alloc, &s.tag, &member.0),
        },
    }
}

/// The name of a slot: that of its object; of a member that of the structure, a dot and its own.
pub fn slot_name(alloc: Global, p: &Program, key: Key) -> Result<Name, NoMemory>
    ensures { IfOk result (λ name. name ≡ slot_name_of p.now key) }
{
    match key {
        Key::Object(i) => match at(p.objects.all(), i as usize) {
            None => Ok(List::of(Vec::new(alloc))),
            Some(object) => copy_list(alloc, &object.name),
        },
        Key::Local(_, _) => Ok(List::of(Vec::new(alloc))),
        Key::Member(s, m) => name_in(alloc, at(p.structures.all(), s as usize), m),
    }
}

/// The size of a scalar type.
#[tactic(auto, using(crate::proofs::SizeLemmas::of_sizes))]
fn scalar_size(t: &CType, p: &Program) -> u32
    requires { is_scalar_type t.now ≡ true }
    ensures value { result ≡ size_of_type t.now p.now.structures p.now.target }
    ensures most { result ≤ 8 }
{
    match &t.shape {
        Shape::Int(int) => u32::from(int.bytes(&p.target)),
        Shape::Pointer(_) => u32::from(p.target.pointer_bytes),
        Shape::Void | Shape::Array(_, _) | Shape::Struct(_) | Shape::Func(_) => unreachable!(),
    }
}

/// The type of a scalar of a slot: of an array its elements'.
fn scalar_of(t: &CType) -> &CType
    ensures { result.now ≡ scalar_of_type t.now }
{
    match &t.shape {
        Shape::Array(of, _) => of.get(),
        Shape::Void | Shape::Int(_) | Shape::Pointer(_) | Shape::Struct(_) | Shape::Func(_) => t,
    }
}

/// The size of one of the scalars of a slot.
pub fn scalar_bytes(p: &Program, key: Key) -> u32
    requires { IsSlot p.now key }
    ensures value { result ≡ scalar_bytes_of p.now key }
    ensures most { result ≤ 8 }
{
    match ctype_of(p, key) {
        None => unreachable!(),
        Some(t) => scalar_size(scalar_of(t), p),
    }
}

fn scalars_of(object: &Object) -> u32
    ensures { result ≡ scalars_of_object object.now }
{
    if object.ctype.is_const() {
        0
    } else {
        match length_of(&object.ctype) {
            None => 1,
            Some(n) => n,
        }
    }
}

/// How many scalars of a slot are in RAM, up to the end of the type, where it is known how often structures stand there.
pub fn scalar_count(p: &Program, standings: &[Standing], key: Key) -> u32
    requires standings { AreStandings p.now standings.now }
    requires slot { IsSlot p.now key }
    ensures { result ≡ capped (scalar_count_of p.now key) }
{
    match key {
        Key::Object(i) => match at(p.objects.all(), i as usize) {
            None => 0,
            Some(object) => scalars_of(object),
        },
        Key::Local(_, _) => 0,
        Key::Member(s, _) => match at(standings, s as usize) {
            None => unreachable!(),
            Some(standing) => standing.copies,
        },
    }
}
