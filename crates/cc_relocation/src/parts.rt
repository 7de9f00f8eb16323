//! Structures, devices, objects and functions with the names and ids of the program.

ghost use Rattle.std.specs.Prelude.{◌≡◌, IfOk, map, zip};
ghost use Rattle.std.specs.Option.{option_copied};
ghost use Rattle.cc_unit.specs.Renumbered.{leaf_renumbered};
ghost use Rattle.cc_relocation.specs.Relocated.{device_with, func_with, local_with, member_with, object_with, structure_with};

use cc_program::num::{List, Name, NoMemory, at};
use cc_program::{CType, Device, Entry, Func, Leaf, Object, Structure, copy_list};
use cc_unit::{Ids, renumber_leaf, renumber_sig, renumber_stmts, renumber_type};
use std::alloc::Global;

fn relocated_member(
    alloc: Global,
    structures: &[u32],
    member: &(Name, CType),
) -> Result<(Name, CType), NoMemory>
    ensures { IfOk result (λ r. r ≡ member_with structures.now member.now) }
{
    let name = copy_list(alloc, &member.0)?;
    Ok((name, renumber_type(alloc, structures, &member.1)?))
}

fn relocated_members(
    alloc: Global,
    structures: &[u32],
    members: &List<(Name, CType)>,
) -> Result<List<(Name, CType)>, NoMemory>
    ensures { IfOk result (λ r. r ≡ map (λ m. member_with structures.now m) members.now) }
{
    let mut relocated = Vec::new(alloc);
    for member in members.all() {
        let member = relocated_member(alloc, structures, member)?;
        relocated.push(member)?;
    }
    Ok(List::of(relocated))
}

/// A structure with this tag, by the program's ids of structures.
pub fn relocated_structure(
    alloc: Global,
    tag: &Name,
    structures: &[u32],
    members: &Option<List<(Name, CType)>>,
) -> Result<Structure, NoMemory>
    ensures { IfOk result (λ r. r ≡ structure_with tag.now structures.now members.now) }
{
    let members = match members {
        None => List::of(Vec::new(alloc)),
        Some(members) => relocated_members(alloc, structures, members)?,
    };
    Ok(Structure {
        tag: copy_list(alloc, tag)?,
        members,
    })
}

/// A device with this name.
pub fn relocated_device(
    alloc: Global,
    name: Option<&Name>,
    device: &Device,
) -> Result<Device, NoMemory>
    ensures { IfOk result (λ r. r ≡ device_with (option_copied name.entry) device.now) }
{
    let name = match name {
        None => None,
        Some(name) => Some(copy_list(alloc, name)?),
    };
    Ok(Device {
        name,
        number: device.number,
        int: device.int,
        constant: device.constant,
    })
}

fn relocated_leaves(alloc: Global, ids: &Ids, init: &[Leaf]) -> Result<List<Leaf>, NoMemory>
    ensures { IfOk result (λ r. r ≡ map (λ leaf. leaf_renumbered ids.now leaf) init.now) }
{
    let mut relocated = Vec::new(alloc);
    for leaf in init {
        relocated.push(renumber_leaf(alloc, ids, leaf)?)?;
    }
    Ok(List::of(relocated))
}

/// An object with this name, by the program's ids.
pub fn relocated_object(
    alloc: Global,
    name: Name,
    ids: &Ids,
    ctype: &CType,
    init: &[Leaf],
) -> Result<Object, NoMemory>
    ensures { IfOk result (λ r. r ≡ object_with name ids.now ctype.now init.now) }
{
    let init = relocated_leaves(alloc, ids, init)?;
    Ok(Object {
        name,
        ctype: renumber_type(alloc, ids.structures.all(), ctype)?,
        init,
    })
}

fn relocated_local(
    alloc: Global,
    structures: &[u32],
    name: &Name,
    local: &(Name, CType),
) -> Result<(Name, CType), NoMemory>
    ensures { IfOk result (λ r. r ≡ local_with structures.now (name.now, local.now)) }
{
    let renamed = copy_list(alloc, name)?;
    Ok((renamed, renumber_type(alloc, structures, &local.1)?))
}

/// Locals with these names. Each has one.
fn relocated_locals(
    alloc: Global,
    structures: &[u32],
    names: &[Name],
    locals: &[(Name, CType)],
) -> Result<List<(Name, CType)>, NoMemory>
    ensures { IfOk result (λ r. r ≡ map (λ l. local_with structures.now l) (zip names.now locals.now)) }
{
    let mut relocated = Vec::new(alloc);
    let mut position: usize = 0;
    for local in locals {
        let Some(name) = at(names, position) else {
            return Ok(List::of(relocated));
        };
        let named = relocated_local(alloc, structures, name, local)?;
        relocated.push(named)?;
        position += 1;
    }
    Ok(List::of(relocated))
}

/// A function with this name, these names of its locals, and how it is a handler, by the program's ids.
pub fn relocated_func(
    alloc: Global,
    name: Name,
    names: &[Name],
    entry: Option<Entry>,
    ids: &Ids,
    func: &Func,
) -> Result<Func, NoMemory>
    ensures { IfOk result (λ r. r ≡ func_with name names.now entry ids.now func.now) }
{
    let structures = ids.structures.all();
    let sig = renumber_sig(alloc, structures, &func.sig)?;
    let locals = relocated_locals(alloc, structures, names, func.locals.all())?;
    Ok(Func {
        name,
        sig,
        entry,
        params: func.params,
        locals,
        body: renumber_stmts(alloc, ids, &func.body)?,
    })
}
