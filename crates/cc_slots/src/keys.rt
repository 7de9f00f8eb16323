//! The keys of the slots of a program.

ghost use Rattle.std.specs.Prelude.{◌≡◌, ◌<◌, ◌^◌, ◌++◌, length, IfOk, OnOk};
ghost use Rattle.cc_program.specs.declared.types.Shape.{out-Shape};
ghost use Rattle.cc_slots.specs.Keys.{is_object_slot as is_object_slot_of, is_member_slot as is_member_slot_of, member_slots, slot_keys as slot_keys_of};
ghost use Rattle.cc_state_points.specs.CcState.Shape.{is_row_shape, is_scalar_type};
ghost use Rattle.cc_state_points.specs.CcStateFacts.declared.facts.Key.TheVariants as key;
ghost use Rattle.cc_state_points.specs.CcStateKeys.Lists.{all_from, made_from, only_if};
ghost use Rattle.cc_state_points.specs.CcSyntax.Sound.{IsTypedProgram};
ghost use Rattle.cc_state_points.specs.CcSyntax.Types.{AreShort};

use cc_program::num::{Name, NoMemory};
use cc_program::{CType, Object, Program, Shape, Structure};
use cc_state_points::state_facts::Key;
use std::alloc::Global;

fn is_scalar(t: &CType) -> bool
    ensures { result ≡ is_scalar_type t.now }
{
    match &t.shape {
        Shape::Int(_) | Shape::Pointer(_) => true,
        Shape::Void | Shape::Array(_, _) | Shape::Struct(_) | Shape::Func(_) => false,
    }
}

/// Whether a type is an array of scalars.
fn is_row(t: &CType) -> bool
    ensures { result ≡ is_row_shape (out-Shape t.now.shape) }
{
    match &t.shape {
        Shape::Array(of, _) => is_scalar(of.get()),
        Shape::Void | Shape::Int(_) | Shape::Pointer(_) | Shape::Struct(_) | Shape::Func(_) =>
            false,
    }
}

fn is_object_slot(i: u32, object: &Object) -> bool
    ensures { result ≡ is_object_slot_of i object.now }
{
    is_scalar(&object.ctype) || is_row(&object.ctype)
}

fn is_member_slot(s: u32, m: u32, member: &(Name, CType)) -> bool
    ensures { result ≡ is_member_slot_of s m member.now }
{
    is_scalar(&member.1)
}

/// Puts a key behind others, where it passes.
fn put_if(keys: &mut Vec<Key>, passes: bool, key: Key) -> Result<(), NoMemory>
    ensures { OnOk result (keys.new.items ≡ keys.old.items ++ only_if passes key) }
{
    if passes {
        keys.push(key)?;
    }
    Ok(())
}

fn put_objects(p: &Program, keys: &mut Vec<Key>) -> Result<(), NoMemory>
    requires { length p.now.objects < 2 ^ 32 }
    ensures { OnOk result (keys.new.items ≡ keys.old.items ++ made_from is_object_slot_of key.Object 0 p.now.objects) }
{
    for (i, object) in p.objects.all().iter().enumerate() {
        put_if(
            keys,
            is_object_slot(i as u32, object),
            Key::Object(i as u32),
        )?;
    }
    Ok(())
}

fn put_members(keys: &mut Vec<Key>, id: u32, s: &Structure) -> Result<(), NoMemory>
    requires { length s.now.members < 2 ^ 32 }
    ensures { OnOk result (keys.new.items ≡ keys.old.items ++ member_slots id s.now) }
{
    for (m, member) in s.members.all().iter().enumerate() {
        put_if(
            keys,
            is_member_slot(id, m as u32, member),
            Key::Member(id, m as u32),
        )?;
    }
    Ok(())
}

fn put_all_members(p: &Program, keys: &mut Vec<Key>) -> Result<(), NoMemory>
    requires few { length p.now.structures < 2 ^ 32 }
    requires each { AreShort p.now.structures }
    ensures { OnOk result (keys.new.items ≡ keys.old.items ++ all_from member_slots 0 p.now.structures) }
{
    for (id, structure) in p.structures.all().iter().enumerate() {
        put_members(keys, id as u32, structure)?;
    }
    Ok(())
}

/// The keys of a program's slots: its static objects that are scalars or arrays of scalars, literals among them, then the scalar members
/// of its structures. The only error is want of memory.
pub fn slot_keys(alloc: Global, p: &Program) -> Result<Vec<Key>, NoMemory>
    requires { IsTypedProgram p.now }
    ensures { IfOk result (λ keys. keys.items ≡ slot_keys_of p.now) }
{
    let mut keys = Vec::new(alloc);
    put_objects(p, &mut keys)?;
    put_all_members(p, &mut keys)?;
    Ok(keys)
}
