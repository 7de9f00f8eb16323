//! The keys of the scalars of types and objects, in order of path.

ghost use Rattle.std.specs.Prelude.{◌≡◌, ◌<◌, ◌^◌, ◌++◌, ◌∷◌, [], length, replicate, unwrap_or, IfOk, Some, slice_get};
ghost use Rattle.std.specs.List.{flat_map};
ghost use Rattle.std.specs.Option.{option_copied};
ghost use Rattle.cc_state_scalars.specs.Listed.{AreKeysOver, AreMemberKeysOver, IsTableOf, AreObjectKeys, AreLocalKeysOver, AreStaticKeys, AreLocalKeys};
ghost use Rattle.cc_state_keys.specs.CcSyntax.Sound.{IsTypedProgram};
ghost use Rattle.cc_state_keys.specs.CcSyntax.Types.{AreShort};

use cc_program::num::{List, Name, NoMemory, at};
use cc_program::{CType, Func, Object, Program, Shape, Structure};
use cc_state_keys::state_facts::Key;
use std::alloc::Global;

/// The keys of a vector, and others behind them.
#[tactic(auto, using(crate::proofs::Rows::of_lists))]
fn appended(front: Vec<Key>, keys: &[Key]) -> Result<Vec<Key>, NoMemory>
    ensures { IfOk result (λ r. r.items ≡ front.items ++ keys.now) }
{
    let mut all = front;
    for key in keys {
        all.push(*key)?;
    }
    Ok(all)
}

fn one(alloc: Global, key: Key) -> Result<List<Key>, NoMemory>
    ensures { IfOk result (λ r. r ≡ key ∷ []) }
{
    let mut all = Vec::new(alloc);
    all.push(key)?;
    Ok(List::of(all))
}

/// The keys so many times, one after the other.
#[tactic(auto, using(crate::proofs::Rows::of_repeats))]
fn repeated(alloc: Global, keys: &List<Key>, times: u32) -> Result<List<Key>, NoMemory>
    ensures { IfOk result (λ r. r ≡ flat_map (λ keys. keys) (replicate times keys.now)) }
{
    let mut all = Vec::new(alloc);
    for _time in 0..times {
        all = appended(all, keys.all())?;
    }
    Ok(List::of(all))
}

fn of_structure(alloc: Global, keys: Option<&List<Key>>) -> Result<List<Key>, NoMemory>
    ensures { IfOk result (λ r. r ≡ unwrap_or (option_copied keys.entry) []) }
{
    match keys {
        None => Ok(List::of(Vec::new(alloc))),
        Some(keys) => Ok(List::of(appended(Vec::new(alloc), keys.all())?)),
    }
}

/// The key of each scalar of a type, where that of the object is this, over the keys of structures.
fn keys_over(alloc: Global, table: &[List<Key>], t: &CType, key: Key) -> Result<List<Key>, NoMemory>
    ensures { IfOk result (λ keys. AreKeysOver table.now t.now key keys) }
{
    match &t.shape {
        Shape::Void => Ok(List::of(Vec::new(alloc))),
        Shape::Int(_) => one(alloc, key),
        Shape::Pointer(_) => one(alloc, key),
        Shape::Array(of, n) => {
            let keys = keys_over(alloc, table, of.get(), key)?;
            repeated(alloc, &keys, *n)
        }
        Shape::Struct(s) => of_structure(alloc, at(table, *s as usize)),
        Shape::Func(_) => Ok(List::of(Vec::new(alloc))),
    }
}

/// Those of the members of a structure, one after the other.
fn member_keys(
    alloc: Global,
    table: &[List<Key>],
    s: u32,
    members: &[(Name, CType)],
) -> Result<List<Key>, NoMemory>
    requires { length members.now < 2 ^ 32 }
    ensures { IfOk result (λ keys. AreMemberKeysOver table.now s members.now keys) }
{
    let mut all = Vec::new(alloc);
    for (m, member) in members.iter().enumerate() {
        let keys = keys_over(alloc, table, &member.1, Key::Member(s, m as u32))?;
        all = appended(all, keys.all())?;
    }
    Ok(List::of(all))
}

/// Those of each structure; it stands on those before it.
fn structure_keys(alloc: Global, structures: &[Structure]) -> Result<List<List<Key>>, NoMemory>
    requires few { length structures.now < 2 ^ 32 }
    requires short { AreShort structures.now }
    ensures { IfOk result (λ table. IsTableOf structures.now table) }
{
    let mut table = Vec::new(alloc);
    for (s, structure) in structures.iter().enumerate() {
        let keys = member_keys(alloc, &table, s as u32, structure.members.all())?;
        table.push(keys)?;
    }
    Ok(List::of(table))
}

/// Those of each static object.
fn object_keys(
    alloc: Global,
    table: &[List<Key>],
    objects: &[Object],
) -> Result<List<List<Key>>, NoMemory>
    requires { length objects.now < 2 ^ 32 }
    ensures { IfOk result (λ keys. AreObjectKeys table.now objects.now keys) }
{
    let mut all = Vec::new(alloc);
    for (i, object) in objects.iter().enumerate() {
        let keys = keys_over(alloc, table, &object.ctype, Key::Object(i as u32))?;
        all.push(keys)?;
    }
    Ok(List::of(all))
}

/// Those of each local of a function.
fn local_keys_over(
    alloc: Global,
    table: &[List<Key>],
    id: u32,
    locals: &[(Name, CType)],
) -> Result<List<List<Key>>, NoMemory>
    requires { length locals.now < 2 ^ 32 }
    ensures { IfOk result (λ keys. AreLocalKeysOver table.now id locals.now keys) }
{
    let mut all = Vec::new(alloc);
    for (r, local) in locals.iter().enumerate() {
        let keys = keys_over(alloc, table, &local.1, Key::Local(id, r as u32))?;
        all.push(keys)?;
    }
    Ok(List::of(all))
}

/// For each static object of a program the key of each of its scalars, in order of path. The only error is want of memory.
pub fn static_keys(alloc: Global, p: &Program) -> Result<List<List<Key>>, NoMemory>
    requires { IsTypedProgram p.now }
    ensures { IfOk result (λ keys. AreStaticKeys p.now p.now.objects keys) }
{
    let table = structure_keys(alloc, p.structures.all())?;
    object_keys(alloc, table.all(), p.objects.all())
}

/// For each local of a function of a program the key of each of its scalars, in order of path. The only error is want of
/// memory.
pub fn local_keys(
    alloc: Global,
    p: &Program,
    id: u32,
    f: &Func,
) -> Result<List<List<Key>>, NoMemory>
    requires typed { IsTypedProgram p.now }
    requires there { slice_get p.now.funcs id ≡ Some f.now }
    ensures { IfOk result (λ keys. AreLocalKeys p.now id f.now.locals keys) }
{
    let table = structure_keys(alloc, p.structures.all())?;
    local_keys_over(alloc, table.all(), id, f.locals.all())
}
