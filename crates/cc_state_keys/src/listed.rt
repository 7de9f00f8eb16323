//! The keys of a program.

ghost use Rattle.std.specs.Prelude.{◌≡◌, ◌<◌, ◌^◌, ◌&&◌, ◌++◌, not, length, slice_get, All, IfOk, OnOk};
ghost use Rattle.cc_registers.specs.Kept.{AreKept, if_kept};
ghost use Rattle.cc_state_facts.specs.declared.facts.Key.TheVariants as key;
ghost use Rattle.cc_state_keys.specs.Keys.{are_scalars as are_scalars_of, has_object_key, local_keys as local_keys_of, member_keys as member_keys_of, keys_of};
ghost use Rattle.cc_state_keys.specs.Lists.{made_from, all_from};
ghost use Rattle.cc_eval.specs.CcSyntax.Sound.{IsTypedProgram};
ghost use Rattle.cc_eval.specs.CcSyntax.Types.{AreShort};

use crate::lists::{is_marked, put_if};
use cc_program::num::{Name, NoMemory};
use cc_program::{CType, Func, Program, Shape, Structure};
use cc_registers::registers_of;
use cc_state_facts::Key;
use std::alloc::Global;

/// Whether a type is a scalar, or an array of scalars of any depth.
#[tactic(auto, unfolding(crate::specs::Keys::are_scalars))]
fn are_scalars(t: &CType) -> bool
    ensures { result ≡ are_scalars_of t.now }
{
    match &t.shape {
        Shape::Int(_) | Shape::Pointer(_) => true,
        Shape::Array(of, _) => are_scalars(of.get()),
        Shape::Void | Shape::Struct(_) | Shape::Func(_) => false,
    }
}

fn put_objects(p: &Program, keys: &mut Vec<Key>) -> Result<(), NoMemory>
    requires { length p.now.objects < 2 ^ 32 }
    ensures { OnOk result (keys.new.items ≡ keys.old.items ++ made_from has_object_key key.Object 0 p.now.objects) }
{
    for (i, object) in p.objects.all().iter().enumerate() {
        put_if(keys, are_scalars(&object.ctype), Key::Object(i as u32))?;
    }
    Ok(())
}

/// Whether a local has a key, by the marks of the registers: it is none.
fn has_local_key(marks: &[bool], r: usize, l: &(Name, CType)) -> bool
    ensures { result ≡ (are_scalars_of l.now.1 && not (if_kept (slice_get marks.now r))) }
{
    are_scalars(&l.1) && !is_marked(marks, r)
}

fn put_locals_by(marks: &[bool], keys: &mut Vec<Key>, id: u32, f: &Func) -> Result<(), NoMemory>
    requires marks { AreKept f.now marks.now }
    requires few { length f.now.locals < 2 ^ 32 }
    ensures { OnOk result (keys.new.items ≡ keys.old.items ++ local_keys_of id f.now) }
{
    for (r, local) in f.locals.all().iter().enumerate() {
        put_if(
            keys,
            has_local_key(marks, r, local),
            Key::Local(id, r as u32),
        )?;
    }
    Ok(())
}

fn put_locals(alloc: Global, keys: &mut Vec<Key>, id: u32, f: &Func) -> Result<(), NoMemory>
    requires { length f.now.locals < 2 ^ 32 }
    ensures { OnOk result (keys.new.items ≡ keys.old.items ++ local_keys_of id f.now) }
{
    let marks = registers_of(alloc, f)?;
    put_locals_by(&marks, keys, id, f)
}

fn put_members(keys: &mut Vec<Key>, id: u32, s: &Structure) -> Result<(), NoMemory>
    requires { length s.now.members < 2 ^ 32 }
    ensures { OnOk result (keys.new.items ≡ keys.old.items ++ member_keys_of id s.now) }
{
    for (m, member) in s.members.all().iter().enumerate() {
        put_if(keys, are_scalars(&member.1), Key::Member(id, m as u32))?;
    }
    Ok(())
}

fn put_all_locals(alloc: Global, p: &Program, keys: &mut Vec<Key>) -> Result<(), NoMemory>
    requires few { length p.now.funcs < 2 ^ 32 }
    requires each { All (λ f. length f.locals < 2 ^ 32) p.now.funcs }
    ensures { OnOk result (keys.new.items ≡ keys.old.items ++ all_from local_keys_of 0 p.now.funcs) }
{
    for (id, func) in p.funcs.all().iter().enumerate() {
        put_locals(alloc, keys, id as u32, func)?;
    }
    Ok(())
}

fn put_all_members(p: &Program, keys: &mut Vec<Key>) -> Result<(), NoMemory>
    requires few { length p.now.structures < 2 ^ 32 }
    requires each { AreShort p.now.structures }
    ensures { OnOk result (keys.new.items ≡ keys.old.items ++ all_from member_keys_of 0 p.now.structures) }
{
    for (id, structure) in p.structures.all().iter().enumerate() {
        put_members(keys, id as u32, structure)?;
    }
    Ok(())
}

/// The keys of a program: those of its static objects, of its locals that are no registers, and of its members, each where it is a
/// scalar or an array of scalars of any depth. The only error is want of memory.
pub fn keys(alloc: Global, p: &Program) -> Result<Vec<Key>, NoMemory>
    requires { IsTypedProgram p.now }
    ensures { IfOk result (λ keys. keys.items ≡ keys_of p.now) }
{
    let mut keys = Vec::new(alloc);
    put_objects(p, &mut keys)?;
    put_all_locals(alloc, p, &mut keys)?;
    put_all_members(p, &mut keys)?;
    Ok(keys)
}
