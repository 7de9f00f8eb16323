//! The names that a program has, so that no new one is among them.

ghost use Rattle.std.specs.Prelude.{◌≡◌, ◌++◌, ◌∷◌, ℕ, List as ListOf, [], IfOk, OnOk, map, flat_map};
ghost use Rattle.cc_lower_numbers.specs.Numbered.{names_of_program};
ghost use Rattle.cc_names.specs.Holds.{Holds};
ghost use Rattle.cc_syntax.specs.Names.{device_names, file_names, intrinsic_names, local_names};

use cc_names::Taken;
use cc_program::num::{Name, NoMemory};
use cc_program::{CType, Device, Func, Object, Program, Roles, Structure};
use std::alloc::Global;

fn reserve_tags(alloc: Global, taken: &mut Taken, structures: &[Structure]) -> Result<(), NoMemory>
    ensures { OnOk result ((reserved : ListOf (ListOf ℕ)) → Holds taken.old reserved [] → Holds taken.new (reserved ++ map (λ s. s.tag) structures.now) []) }
{
    for structure in structures {
        taken.reserve(alloc, structure.tag.all())?;
    }
    Ok(())
}

/// The names of members or locals.
fn reserve_named(alloc: Global, taken: &mut Taken, named: &[(Name, CType)]) -> Result<(), NoMemory>
    ensures { OnOk result ((reserved : ListOf (ListOf ℕ)) → Holds taken.old reserved [] → Holds taken.new (reserved ++ local_names named.now) []) }
{
    for one in named {
        taken.reserve(alloc, one.0.all())?;
    }
    Ok(())
}

fn reserve_members(
    alloc: Global,
    taken: &mut Taken,
    structures: &[Structure],
) -> Result<(), NoMemory>
    ensures { OnOk result ((reserved : ListOf (ListOf ℕ)) → Holds taken.old reserved [] → Holds taken.new (reserved ++ flat_map (λ s. local_names s.members) structures.now) []) }
{
    for structure in structures {
        reserve_named(alloc, taken, structure.members.all())?;
    }
    Ok(())
}

fn reserve_locals(alloc: Global, taken: &mut Taken, funcs: &[Func]) -> Result<(), NoMemory>
    ensures { OnOk result ((reserved : ListOf (ListOf ℕ)) → Holds taken.old reserved [] → Holds taken.new (reserved ++ flat_map (λ f. local_names f.locals) funcs.now) []) }
{
    for f in funcs {
        reserve_named(alloc, taken, f.locals.all())?;
    }
    Ok(())
}

fn reserve_device(alloc: Global, taken: &mut Taken, device: &Device) -> Result<(), NoMemory>
    ensures { OnOk result ((reserved : ListOf (ListOf ℕ)) → Holds taken.old reserved [] → Holds taken.new (reserved ++ device_names (device.now ∷ [])) []) }
{
    match &device.name {
        None => Ok(()),
        Some(name) => taken.reserve(alloc, name.all()),
    }
}

fn reserve_devices(alloc: Global, taken: &mut Taken, devices: &[Device]) -> Result<(), NoMemory>
    ensures { OnOk result ((reserved : ListOf (ListOf ℕ)) → Holds taken.old reserved [] → Holds taken.new (reserved ++ device_names devices.now) []) }
{
    for device in devices {
        reserve_device(alloc, taken, device)?;
    }
    Ok(())
}

fn reserve_objects(alloc: Global, taken: &mut Taken, objects: &[Object]) -> Result<(), NoMemory>
    ensures { OnOk result ((reserved : ListOf (ListOf ℕ)) → Holds taken.old reserved [] → Holds taken.new (reserved ++ map (λ o. o.name) objects.now) []) }
{
    for object in objects {
        taken.reserve(alloc, object.name.all())?;
    }
    Ok(())
}

fn reserve_funcs(alloc: Global, taken: &mut Taken, funcs: &[Func]) -> Result<(), NoMemory>
    ensures { OnOk result ((reserved : ListOf (ListOf ℕ)) → Holds taken.old reserved [] → Holds taken.new (reserved ++ map (λ f. f.name) funcs.now) []) }
{
    for f in funcs {
        taken.reserve(alloc, f.name.all())?;
    }
    Ok(())
}

fn reserve_intrinsics(alloc: Global, taken: &mut Taken, roles: &Roles) -> Result<(), NoMemory>
    ensures { OnOk result ((reserved : ListOf (ListOf ℕ)) → Holds taken.old reserved [] → Holds taken.new (reserved ++ intrinsic_names roles.now) []) }
{
    taken.reserve(alloc, roles.off.all())?;
    taken.reserve(alloc, roles.on.all())?;
    taken.reserve(alloc, roles.save.all())?;
    taken.reserve(alloc, roles.restore.all())?;
    Ok(())
}

/// The names of what a program declares outside of functions.
fn reserve_file(alloc: Global, taken: &mut Taken, p: &Program) -> Result<(), NoMemory>
    ensures { OnOk result ((reserved : ListOf (ListOf ℕ)) → Holds taken.old reserved [] → Holds taken.new (reserved ++ file_names p.now) []) }
{
    reserve_devices(alloc, taken, p.devices.all())?;
    reserve_objects(alloc, taken, p.objects.all())?;
    reserve_funcs(alloc, taken, p.funcs.all())?;
    reserve_intrinsics(alloc, taken, &p.roles)?;
    Ok(())
}

/// From now on no new name is one that a program has. None is taken before.
fn reserve(alloc: Global, taken: &mut Taken, p: &Program) -> Result<(), NoMemory>
    requires { Holds taken.old [] [] }
    ensures { OnOk result (Holds taken.new (names_of_program p.now) []) }
{
    reserve_tags(alloc, taken, p.structures.all())?;
    reserve_members(alloc, taken, p.structures.all())?;
    reserve_file(alloc, taken, p)?;
    reserve_locals(alloc, taken, p.funcs.all())?;
    Ok(())
}

/// The names that a program has: tags, members, devices, objects, functions, intrinsics and locals. No new name is one of them. The only
/// error is want of memory.
pub fn reserved(alloc: Global, p: &Program) -> Result<Taken, NoMemory>
    ensures { IfOk result (λ taken. Holds taken (names_of_program p.now) []) }
{
    let mut taken = Taken::new(alloc);
    reserve(alloc, &mut taken, p)?;
    Ok(taken)
}
